// Walks over bytes that know nothing of forms.
ghost use Rattle.std.specs.Prelude.{◌≡◌};
ghost use Rattle.memory.specs.Lists.{same};
ghost use Rattle.text.specs.inner.Scan.{Until, Unspaced};

// The place of the first byte `end` from `from` on, or where the bytes end. `position` over the rest asks that `from` is no place past the end,
// which callers do not know; and one function for this walk and the next takes a test as a closure, and is no shorter than both.
pub fn until(bytes: &[u8], from: usize, end: u8) -> usize
    ensures { Until end from bytes.now result }
{
    for at in from..bytes.len() {
        if bytes[at] == end {
            return at;
        }
    }
    from.max(bytes.len())
}

// The place of the first byte from `from` on that is no space, or where the bytes end.
pub fn unspaced(line: &[u8], from: usize) -> usize
    ensures { Unspaced from line.now result }
{
    for at in from..line.len() {
        if line[at] != b' ' {
            return at;
        }
    }
    from.max(line.len())
}

// One line over `==`, for job_form's ifs over names: a `match` on byte strings was tried there and left an arm for each byte open.
pub fn equal(part: &[u8], name: &[u8]) -> bool
    ensures { result ≡ same part.now name.now }
{
    part == name
}
