// The search for a way back from its end: levels of points from the target on, and the successors followed.

#![tactic(auto)]

mod backwards;
mod finding;
mod successors;

pub use finding::find;
