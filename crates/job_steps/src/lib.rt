// What the lines of each form do to the state of a reading.

#![tactic(auto)]

mod jobs;
mod lists;
mod rows;

pub use jobs::job_step;
pub use lists::{close_step, list_step};
pub use rows::row_step;
