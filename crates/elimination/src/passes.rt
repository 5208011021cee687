// A table closed in place, two points at a time. The table stays a slice beside its size: docs/REVIEW.md names `close`, which takes them so.
ghost use Rattle.std.specs.Prelude.{◌+◌, ◌*◌, ◌≤◌, ◌<◌, length};
ghost use Rattle.elimination.specs.inner.Rows.{Square};
ghost use Rattle.elimination.specs.inner.Passes.{RowsRelaxed, RowsRelaxedTwice, Passed, PassedTwice, PassedAll};

use memory::copy;
use relax::{relax, relax_pair, relax_two};
use semiring::Algebra;

// Every row through point k, whose row was `via`.
fn rows(a: Algebra, n: usize, k: usize, via: &[u16], table: &mut [u16])
    requires { Square n table.old × (k < n) × (n ≤ length via.now) }
    ensures { RowsRelaxed a n k via.now table.old table.new }
{
    for i in 0..n {
        let at = i * n;
        let end = at + n;
        relax(a, k, via, &mut table[at..end]);
    }
}

// Every row through points k and k + 1.
fn rows_two(a: Algebra, n: usize, k: usize, via: &[u16], next: &[u16], table: &mut [u16])
    requires { Square n table.old × (k + 1 < n) × (n ≤ length via.now) × (n ≤ length next.now) }
    ensures { RowsRelaxedTwice a n k via.now next.now table.old table.new }
{
    for i in 0..n {
        let at = i * n;
        let end = at + n;
        relax_two(a, k, via, next, &mut table[at..end]);
    }
}

// The same, two rows at a time.
fn row_pairs(a: Algebra, n: usize, k: usize, via: &[u16], next: &[u16], table: &mut [u16])
    requires { Square n table.old × (k + 1 < n) × (n ≤ length via.now) × (n ≤ length next.now) }
    ensures { RowsRelaxedTwice a n k via.now next.now table.old table.new }
{
    for pair in 0..n / 2 {
        let at = 2 * pair * n;
        let end = at + 2 * n;
        relax_pair(a, n, k, via, next, &mut table[at..end]);
    }
    for i in n / 2 * 2..n {
        let at = i * n;
        let end = at + n;
        relax_two(a, k, via, next, &mut table[at..end]);
    }
}

// The pass of point k. `via` has room for a row.
fn pass(a: Algebra, n: usize, k: usize, via: &mut [u16], table: &mut [u16])
    requires { Square n table.old × (k < n) × (n ≤ length via.old) }
    ensures { Passed a n k table.old table.new }
{
    let at = k * n;
    let end = at + n;
    copy(&table[at..end], via);
    rows(a, n, k, via, table);
}

// The passes of points k and k + 1. `via` and `next` have room for a row each.
fn pass_two(a: Algebra, n: usize, k: usize, via: &mut [u16], next: &mut [u16], table: &mut [u16])
    requires { Square n table.old × (k + 1 < n) × (n ≤ length via.old) × (n ≤ length next.old) }
    ensures { PassedTwice a n k table.old table.new }
{
    let at = k * n;
    let middle = at + n;
    let end = middle + n;
    copy(&table[at..middle], via);
    copy(&table[middle..end], next);
    relax(a, k, via, &mut next[..n]);
    // Compiled, two rows in one loop go in steps of eight words, one row in steps of sixteen and of four: the first is faster where fewer
    // than four words are left over.
    if n % 8 < 4 {
        row_pairs(a, n, k, via, next, table);
    } else {
        rows_two(a, n, k, via, next, table);
    }
}

// All passes.
pub fn close(a: Algebra, n: usize, table: &mut [u16])
    requires { Square n table.old }
    ensures { PassedAll a n table.old table.new }
{
    let mut via = [0u16; 128];
    let mut next = [0u16; 128];
    for points in 0..n / 2 {
        pass_two(a, n, 2 * points, &mut via, &mut next, table);
    }
    if n % 2 == 1 {
        pass(a, n, n - 1, &mut via, table);
    }
}
