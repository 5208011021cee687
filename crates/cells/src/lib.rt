// The work of the array's cells on one tick, in place, once a and b hold what came in: c, then what a and b take from it.

#![tactic(auto)]

mod settling;
mod summing;
mod taking;

pub use settling::settle;
