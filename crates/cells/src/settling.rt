// The cells' work once a and b hold what came in.
ghost use Rattle.std.specs.Prelude.{◌≡◌, ◌*◌, length};
ghost use Rattle.cells.specs.Settled.{Settled};

use crate::summing::add_band;
use crate::taking::take_rows;
use semiring::Algebra;
use turns::{Front, Turn};

// c, then what a and b take from it. Rows up to the point of the head are in its pass and in the algebra `here`, the others in the pass before
// and in the algebra `behind`: where the cells of a row are on two jobs, those on the one before it are in its last pass and add nothing.
pub fn settle(here: Algebra, behind: Algebra, front: Front, planes: &mut [u16])
    requires { length planes.old ≡ 3 * (front.n * front.n) }
    ensures { Settled here behind front.n front.count front.head planes.old planes.new }
{
    let Front { n, count, head } = front;
    // Never so. A `Front` is lent in memory, where the compiler learns no bound of n, and without one each row's loop tests whether planes overlap.
    if 32 < n {
        return;
    }
    let split = head.point + 1;
    let rest = Turn {
        pass: head.pass - 1,
        point: n - 1,
    };
    add_band(here, n, count, 0, split, head, planes);
    add_band(behind, n, count, split, n, rest, planes);
    take_rows(front, planes);
}
