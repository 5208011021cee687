// Border texts through the reader: one line for each, held to the stored output. On standard input a line with a label stands
// before each text, and a form feed after it.

#![tactic(auto)]

mod cases;
mod limits;

use input::{Input, read_all};
use std::io;

// The cases of an input, of what there is room for.
fn main(rt: HostRuntime) -> io::Result<()> {
    let mut text = [0u8; 65536];
    match read_all(&mut rt.stdin(), &mut text)? {
        Input::Ended(n) => cases::all(&rt, &text[..n])?,
        Input::Full => cases::all(&rt, &text)?,
    }
    limits::all(&rt)
}
