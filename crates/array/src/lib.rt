// The array's call run, which makes ticks of a started state.

#![tactic(auto)]

mod running;

pub use running::{run, scratch_words};
