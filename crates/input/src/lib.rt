// All of standard input, as far as there is room, and whether that is all of it.

#![tactic(auto)]

ghost use Rattle.std.specs.Prelude.{length, IfOk};
ghost use Rattle.std.specs.Io.{ReadsAtMost};
ghost use Rattle.std.specs.Io.KnownBytes.{ReadConsumes};
ghost use Rattle.std.specs.Result.{result_ok};
ghost use Rattle.input.specs.Reads.{ReadInto, BytesRead};

use std::io;
use std::io::{ErrorKind, Read};

// What reading came to, where no read failed. In an `Option`, `None` would not say that more may follow.
#[derive(Clone, Copy)]
pub enum Input {
    // the input ended after so many bytes, with room left
    Ended(usize),
    // no room is left, and more may follow
    Full,
}

// One read. Where a signal interrupts it, it is made again, at most 1,000 times.
fn read_some<R: Read>(from: &mut R, part: &mut [u8]) -> io::Result<usize>
    ensures within { ReadsAtMost result part.new }
    ensures bytes { ReadConsumes (R.remaining from.old) (R.remaining from.new) result part.new }
{
    'again: for _ in 0..1000 {
        match from.read(part) {
            Err(why) if why.kind() == ErrorKind::Interrupted => {}
            answer => return answer,
        }
    }
    from.read(part)
}

// It ends at the first read that fails, with that read's error.
pub fn read_all<R: Read>(from: &mut R, text: &mut [u8]) -> io::Result<Input>
    ensures read { ReadInto (length text.old) (result_ok result) }
    ensures bytes { IfOk result (BytesRead (R.remaining from.old) (R.remaining from.new) text.new) }
{
    let mut at = 0;
    // no `for`: what a read gave says where the next one begins
    while at < text.len() {
        let n = read_some(from, &mut text[at..])?;
        if n == 0 {
            return Ok(Input::Ended(at));
        }
        at += n;
    }
    Ok(Input::Full)
}
