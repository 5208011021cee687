// What a line of a job text says: what each of its parts stands for, the form that they make, and the words of a row.

#![tactic(auto)]

mod buffers;
mod forms;
mod rows;
mod tokens;

pub use buffers::store;
pub use forms::{Line, read_line};
pub use rows::{Row, Tally, read_row};
pub use tokens::Token;
