// a and b move on by a cell, in place: what leaves the last row and column to the edges, the planes, what comes in at the edges.

#![tactic(auto)]

mod entering;
mod sliding;
mod wrapping;

pub use entering::enter;
pub use sliding::slide;
pub use wrapping::wrap;
