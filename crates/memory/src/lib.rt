// Lent memory: the walks over words that every crate above uses, and under specs/ and proofs/ the laws of lists of words.

#![tactic(auto)]

ghost use Rattle.std.specs.Prelude.{◌≡◌, ◌≤◌, length, get_or, replicate};
ghost use Rattle.memory.specs.Lists.{same};
ghost use Rattle.memory.specs.Walked.{Walked};

// The words of `from` to the front of `to`.
pub fn copy(from: &[u16], to: &mut [u16])
    requires { length from.now ≤ length to.old }
    ensures { Walked (λ p word. get_or from.now p 0) to.old (length from.now) to.new }
{
    for p in 0..from.len() {
        to[p] = from[p];
    }
}

// Every word 0.
pub fn clear(words: &mut [u16])
    ensures { words.new ≡ replicate (length words.old) 0 }
{
    words.fill(0);
}

// Whether two memories hold the same words.
pub fn same_words(words: &[u16], others: &[u16]) -> bool
    ensures { result ≡ same words.now others.now }
{
    words == others
}
