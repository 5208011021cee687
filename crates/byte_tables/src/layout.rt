// The table with its diagonal set, laid out from a host's bytes in one walk: no word is copied in between.
ghost use Rattle.std.specs.Prelude.{◌≡◌, ◌*◌, length};
ghost use Rattle.table_layout.specs.LaidOut.{laid_out, ToLayOut};
ghost use Rattle.byte_tables.specs.Bytes.{decoded};

use crate::bytes::decode;
use semiring::{Algebra, own};

// The first m steps, as `table_layout::lay_out` makes them. Both stay, since docs/CLAIMS.md names both (K3). They differ in how a stretch is taken:
// one inner function would need a trait over the weights and two types that wrap the slices, which is longer than this walk.
pub fn lay_out(a: Algebra, n: usize, m: usize, weights: &[u8], table: &mut [u16])
    requires { ToLayOut n m (decoded weights.now) table.old × (length weights.now ≡ 2 * (n * n)) }
    ensures { table.new ≡ laid_out a n m (decoded weights.now) table.old }
{
    let word = own(a);
    for at in (0..m).step_by(n + 1) {
        table[at] = word;
        let from = at + 1;
        let to = (from + n).min(m);
        decode(&weights[2 * from..2 * to], &mut table[from..to]);
    }
}
