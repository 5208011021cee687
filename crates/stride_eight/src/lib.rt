// Tables of up to eight points with a stride of eight words from row to row, so that a row is one vector of 128 bits. The words past a
// row's n, its padding, are relaxed with the rest and reach no word of the table. The words come from a host's bytes and go back there.

#![tactic(auto)]

mod encoding;
mod layout;
mod passes;

pub use encoding::encode;
pub use layout::lay_out;
pub use passes::close;
