// Whether a link's worst word betters its best one: one walk over both tables, from one place on the diagonal to the next.
ghost use Rattle.std.specs.Prelude.{◌≡◌, length};
ghost use Rattle.ranges.specs.Tests.{inverted};
ghost use Rattle.interval.specs.inner.Compared.{Pair, some_betters};

use semiring::{Algebra, is_better};

// Whether one of the words betters the other at its place. The walk does not stop at the first that does, so that it runs on vectors.
fn some_better(a: Algebra, words: &[u16], others: &[u16]) -> bool
    requires { length words.now ≡ length others.now }
    ensures { result ≡ some_betters a words.now others.now }
{
    let mut found = false;
    for p in 0..words.len() {
        found |= is_better(a, words[p], others[p]);
    }
    found
}

// Between two places on the diagonal, which stays out, stand n words: from (i, i) to (i + 1, i + 1).
pub fn is_inverted(a: Algebra, n: usize, best: &[u16], worst: &[u16]) -> bool
    requires { Pair n best.now worst.now }
    ensures { result ≡ inverted a n best.now worst.now }
{
    let mut found = false;
    for i in 0..n.saturating_sub(1) {
        let from = i * n + i + 1;
        let to = from + n;
        found |= some_better(a, &worst[from..to], &best[from..to]);
    }
    found
}
