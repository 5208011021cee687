// The parts of a line.
ghost use Rattle.text.specs.inner.Scan.{NextPart};

use crate::bytes::{unspaced, until};

// Where a part stands in its line.
#[derive(Clone, Copy)]
pub struct Part {
    pub start: usize,
    pub end: usize,
}

// The first part from `from` on, if one follows.
pub fn next_part(line: &[u8], from: usize) -> Option<Part>
    ensures { NextPart from line.now result }
{
    let start = unspaced(line, from);
    let end = until(line, start, b' ');
    if end <= start {
        return None;
    }
    Some(Part { start, end })
}
