// Whether the words of bytes are words of their algebra. Nothing is written.
ghost use Rattle.std.specs.Prelude.{◌≡◌};
ghost use Rattle.semiring.specs.Algebra.{top_of};
ghost use Rattle.semiring.specs.Words.{any_above};
ghost use Rattle.byte_tables.specs.Bytes.{decoded};

use crate::bytes::word;
use semiring::{Algebra, PathAlgebra, Reach};

// Whether a word of the bytes is above `top`. The walk does not stop at the first one, so that it runs on vectors.
fn above(top: u16, bytes: &[u8]) -> bool
    ensures { result ≡ any_above top (decoded bytes.now) }
{
    let mut found = false;
    for p in 0..bytes.len() / 2 {
        found |= top < word(bytes[2 * p], bytes[2 * p + 1]);
    }
    found
}

// Whether some word of the bytes is not a word of the algebra: only reach has fewer words than there are 16-bit numbers. With
// `semiring::has_word_above` it shares this `match` alone, and a function of both would be no shorter.
pub fn has_word_above(a: Algebra, bytes: &[u8]) -> bool
    ensures { result ≡ any_above (top_of a) (decoded bytes.now) }
{
    match a {
        Algebra::Reach => above(Reach::TOP, bytes),
        Algebra::Distance | Algebra::Steepest => false,
    }
}
