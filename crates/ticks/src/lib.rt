// The ticks of the systolic array, in place in its planes: what comes in at its edges, the cells, what leaves.

#![tactic(auto)]

mod sweep;
mod ticks;

pub use ticks::{Ticks, advance};
