// Whether a card passed, to standard output.
ghost use Rattle.std.specs.Prelude.{◌≡◌, length, take};
ghost use Rattle.memory.specs.Lists.{same};
ghost use Rattle.cards.specs.Verdict.{verdict_of};

use std::io;
use std::io::Print;

fn verdict(passed: bool) -> &'static str
    ensures { result.now ≡ verdict_of passed }
{
    if passed { "right\n" } else { "wrong\n" }
}

pub fn tell(rt: &HostRuntime, card: &str, passed: bool) -> io::Result<()> {
    print!(rt; "{card}: ")?;
    print!(rt; "{}", verdict(passed))
}

// Of a card that expects what is wrong, by the same words: one that comes out right shows against the stored output.
pub fn tell_wrong(rt: &HostRuntime, card: &str, passed: bool) -> io::Result<()> {
    print!(rt; "must be wrong: ")?;
    tell(rt, card, passed)
}

// Whether the page's first bytes are the text.
pub fn begins(page: &[u8], text: &[u8]) -> bool
    ensures { result ≡ same (take (length text.now) page.now) text.now }
{
    page.starts_with(text)
}
