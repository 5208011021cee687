// Whether words are words of their algebra.
ghost use Rattle.std.specs.Prelude.{◌≡◌};
ghost use Rattle.semiring.specs.Algebra.{top_of};
ghost use Rattle.semiring.specs.Words.{any_above};

use crate::{Algebra, PathAlgebra, Reach};

// Whether a word is above reach's top, which is 1: then it has a bit above the first. The bits of all words are taken together, with no
// test of each, so that the walk runs on vectors at one step a word.
fn above_reach(words: &[u16]) -> bool
    ensures { result ≡ any_above 1 words.now }
{
    let mut bits = 0u16;
    for word in words {
        bits |= *word;
    }
    Reach::TOP < bits
}

// Whether a word is none of the algebra's: only reach has fewer words than there are 16-bit numbers.
pub fn has_word_above(a: Algebra, words: &[u16]) -> bool
    ensures { result ≡ any_above (top_of a) words.now }
{
    match a {
        Algebra::Reach => above_reach(words),
        Algebra::Distance | Algebra::Steepest => false,
    }
}
