// What stands in the array on a tick: the turn of cell (0, 0) and the jobs that the cells are on.

#![tactic(auto)]

mod jobs;
mod stage;

pub use jobs::{Job, mark};
pub use stage::{Stage, stage_at};
