// Turns of the cells: the pass that a cell is in and its point in it, and which cells of a row or an edge are in which pass.

#![tactic(auto)]

mod band;
mod columns;
mod front;
mod passes;
mod turn;

pub use band::Band;
pub use columns::Columns;
pub use front::Front;
pub use passes::{begins, live, sums};
pub use turn::Turn;
