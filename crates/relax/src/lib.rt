// One row of a table through one point or through two, or two rows at once: the loops whose bodies run in the order of n³ times.

#![tactic(auto)]

ghost use Rattle.std.specs.Prelude.{◌≡◌, ◌+◌, ◌*◌, ◌<◌, ◌≤◌, length};
ghost use Rattle.relax.specs.Relax.{relaxed, relaxed_twice, PairWalked};
ghost use Rattle.memory.specs.Walked.{Walked};
ghost use Rattle.semiring.specs.Algebra.{sum_of, product_of};

use semiring::{Algebra, product, sum};

// The better of a word and the way through a point: x leads there, `link` on from there.
fn through(a: Algebra, word: u16, x: u16, link: u16) -> u16
    ensures { result ≡ sum_of a word (product_of a x link) }
{
    sum(a, word, product(a, x, link))
}

// The row through point k, whose own row is `via`.
pub fn relax(a: Algebra, k: usize, via: &[u16], row: &mut [u16])
    requires { (k < length row.old) × (length row.old ≤ length via.now) }
    ensures { Walked (relaxed a k via.now row.old)
        row.old (length row.old) row.new }
{
    let x = row[k];
    for p in 0..row.len() {
        row[p] = through(a, row[p], x, via[p]);
    }
}

// The row through points k and k + 1 in one walk, which halves the loads and stores. `next` is the row of k + 1 once it
// went through k.
pub fn relax_two(a: Algebra, k: usize, via: &[u16], next: &[u16], row: &mut [u16])
    requires { (k + 1 < length row.old) × (length row.old ≤ length via.now) × (length row.old ≤ length next.now) }
    ensures { Walked (relaxed_twice a k via.now next.now row.old)
        row.old (length row.old) row.new }
{
    let x = row[k];
    let y = through(a, row[k + 1], x, via[k + 1]);
    for p in 0..row.len() {
        let once = through(a, row[p], x, via[p]);
        row[p] = through(a, once, y, next[p]);
    }
}

// Two rows, one after the other in the memory, each through points k and k + 1: one loop loads `via` and `next` once for both.
pub fn relax_pair(a: Algebra, n: usize, k: usize, via: &[u16], next: &[u16], rows: &mut [u16])
    requires { (k + 1 < n) × (n ≤ 128) × (length rows.old ≡ 2 * n) × (n ≤ length via.now) × (n ≤ length next.now) }
    ensures { PairWalked n (relaxed_twice a k via.now next.now) rows.old n rows.new }
{
    let x = rows[k];
    let y = through(a, rows[k + 1], x, via[k + 1]);
    let u = rows[n + k];
    let v = through(a, rows[n + k + 1], u, via[k + 1]);
    for p in 0..n {
        let first = via[p];
        let second = next[p];
        let q = n + p;
        let upper = through(a, rows[p], x, first);
        rows[p] = through(a, upper, y, second);
        let lower = through(a, rows[q], u, first);
        rows[q] = through(a, lower, v, second);
    }
}
