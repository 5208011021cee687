// What reading a job text gives: the state between its lines and the answer. The definitions are under specs/, and the theorems of every
// text under proofs/; its lines are read by `job_steps`, and the text by `job_text`.

#![tactic(auto)]

mod answer;
mod state;

pub use answer::{List, Refusal};
pub use state::{Due, State};
