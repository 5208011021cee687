// Tables of words in bytes, two a word, low byte first, as a host in C lends them: their test, their layout and their words.

#![tactic(auto)]

mod bytes;
mod layout;
mod test;

pub use bytes::{decode, encode};
pub use layout::lay_out;
pub use test::has_word_above;
