// One line of a road file: what it says.

#![tactic(auto)]

mod forms;
mod numbers;

pub use forms::{Arc, Line, Said, read_line};
