// The table with its diagonal set, laid out in one walk.

#![tactic(auto)]

ghost use Rattle.std.specs.Prelude.{◌≡◌};
ghost use Rattle.table_layout.specs.LaidOut.{laid_out, ToLayOut};

use memory::copy;
use semiring::{Algebra, own};

// The first m steps of the walk: a step writes one word of the table, and no later step writes it. From one place on the diagonal to
// the next the walk takes the own word, then the n words of the weights between the two.
pub fn lay_out(a: Algebra, n: usize, m: usize, weights: &[u16], table: &mut [u16])
    requires { ToLayOut n m weights.now table.old }
    ensures { table.new ≡ laid_out a n m weights.now table.old }
{
    let word = own(a);
    for at in (0..m).step_by(n + 1) {
        table[at] = word;
        let from = at + 1;
        let to = (from + n).min(m);
        copy(&weights[from..to], &mut table[from..to]);
    }
}
