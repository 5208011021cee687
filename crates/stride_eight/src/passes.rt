// A table of up to eight points closed in place.
ghost use Rattle.std.specs.Prelude.{◌<◌, ◌≡◌, length};
ghost use Rattle.stride_eight.specs.Strided.{Room};
ghost use Rattle.stride_eight.specs.inner.Passes.{RowsRelaxed, PassedAll};

use memory::copy;
use relax::relax;
use semiring::Algebra;

// Every row through point k, whose row was `via`. `elimination` walks rows of n words: one function of both would take the width beside n,
// and here it is the constant 8.
fn rows(a: Algebra, n: usize, k: usize, via: &[u16], table: &mut [u16])
    requires { Room n table.old × (k < n) × (length via.now ≡ 8) }
    ensures { RowsRelaxed a n k via.now table.old table.new }
{
    for i in 0..n {
        let at = i * 8;
        let end = at + 8;
        relax(a, k, via, &mut table[at..end]);
    }
}

// All passes.
pub fn close(a: Algebra, n: usize, table: &mut [u16])
    requires { Room n table.old }
    ensures { PassedAll a n table.old table.new }
{
    let mut via = [0u16; 8];
    for k in 0..n {
        let at = k * 8;
        let end = at + 8;
        copy(&table[at..end], &mut via);
        rows(a, n, k, &via, table);
    }
}
