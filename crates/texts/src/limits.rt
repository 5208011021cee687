// Texts at the limit of length, and buffers of other lengths.
ghost use Rattle.std.specs.Prelude.{◌≤◌};

use crate::cases;
use std::io;

// A text of so many bytes: a list, and spaces.
fn spaced<const N: usize>(rt: &HostRuntime, label: &[u8]) -> io::Result<()>
    requires { N ≤ 65537 }
{
    let mut text = [b' '; N];
    for (to, from) in text
        .iter_mut()
        .zip(b"(list 1\n(job 1 reach\n(row 1)\n)\n)\n")
    {
        *to = *from;
    }
    cases::fresh(rt, label, &text)
}

pub fn all(rt: &HostRuntime) -> io::Result<()> {
    spaced::<65536>(rt, b"65536 bytes")?;
    spaced::<65537>(rt, b"65537 bytes")?;
    cases::one::<15, 16, 16384>(rt, b"15 algebras", b"x")?;
    cases::one::<17, 16, 16384>(rt, b"17 algebras", b"x")?;
    cases::one::<16, 15, 16384>(rt, b"15 sizes", b"x")?;
    cases::one::<16, 17, 16384>(rt, b"17 sizes", b"x")?;
    cases::one::<16, 16, 16383>(rt, b"16383 weights", b"x")?;
    cases::one::<16, 16, 16385>(rt, b"16385 weights", b"x")
}
