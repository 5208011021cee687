// The lines of a sheet tick by tick: the entries that leave, row by row.

#![tactic(auto)]

mod tick_lines;

pub use tick_lines::{Finished, put_ticks};
