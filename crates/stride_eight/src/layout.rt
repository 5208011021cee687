// The table with its diagonal set, laid out from a host's bytes in one walk, row by row.
ghost use Rattle.byte_tables.specs.Bytes.{decoded};
ghost use Rattle.stride_eight.specs.Strided.{LaidRows, ToLayOutRows};

use byte_tables::decode;
use semiring::{Algebra, own};

// The first rows of the walk. Each row is decoded whole, then its word on the diagonal is set to the own word.
pub fn lay_out(a: Algebra, n: usize, rows: usize, weights: &[u8], table: &mut [u16])
    requires { ToLayOutRows n rows weights.now table.old }
    ensures { LaidRows a n rows (decoded weights.now) table.old table.new }
{
    let word = own(a);
    for i in 0..rows {
        let from = 2 * (i * n);
        let to = from + 2 * n;
        let at = i * 8;
        let end = at + n;
        decode(&weights[from..to], &mut table[at..end]);
        table[at + i] = word;
    }
}
