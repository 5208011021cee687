// Bytes read and written: lines and parts with their places, decimal numerals, a lent page.

#![tactic(auto)]

mod bytes;
mod numeral;
mod page;
mod parts;
mod put_numeral;

pub use bytes::{equal, unspaced, until};
pub use numeral::{all_digits, read_numeral};
pub use page::Page;
pub use parts::{Part, next_part};
