// c once a and b hold what came in.
ghost use Rattle.std.specs.Prelude.{◌≡◌, ◌+◌, ◌*◌, ◌≤◌, ◌<◌, length};
ghost use Rattle.memory.specs.Walked.{Spanned};
ghost use Rattle.turns.specs.Turn.{step_of};
ghost use Rattle.cells.specs.Work.{adding};
ghost use Rattle.cells.specs.Rows.{Row, Rows, Done};
ghost use Rattle.cells.specs.Settled.{added, Begun};

use semiring::{Algebra, none, product, sum};
use turns::{Columns, Turn, begins, sums};

// c starts as none in the cell at point 0 of pass 0.
fn begin(algebra: Algebra, count: usize, at: usize, s: Turn, planes: &mut [u16])
    requires { (count ≤ 16) × (at + s.point < length planes.old) }
    ensures { Begun algebra count at s planes.old planes.new }
{
    if begins(count, s.pass) {
        planes[at + s.point] = none(algebra);
    }
}

// The words of c from `at` to `end`: the sum with the product of what came in. The area and the planes' length are asked here, in `put` and in
// `a_takes`: a struct that lends the planes would have its length said again after each write.
fn add(algebra: Algebra, area: usize, at: usize, end: usize, planes: &mut [u16])
    requires { (area ≤ 1024) × (at ≤ end) × (end ≤ area) × (length planes.old ≡ 3 * area) }
    ensures { Spanned (added algebra area planes.old) planes.old at end planes.new }
{
    for p in at..end {
        planes[p] = sum(
            algebra,
            planes[p],
            product(algebra, planes[p + area], planes[p + 2 * area]),
        );
    }
}

// c of row i.
fn add_row(algebra: Algebra, n: usize, count: usize, i: usize, s: Turn, planes: &mut [u16])
    requires { Row n count i s planes.old }
    ensures { Done (adding algebra count) n (step_of n s + i) planes.old i (i + 1) planes.new }
{
    let at = i * n;
    let summed = Columns::summed(n, count, s);
    begin(algebra, count, at, s, planes);
    add(algebra, n * n, at + summed.from, at + summed.to, planes);
}

// c of the rows from ≤ i < to one by one, of which the first has turn s.
fn add_rows(
    algebra: Algebra,
    n: usize,
    count: usize,
    from: usize,
    to: usize,
    first: Turn,
    planes: &mut [u16],
)
    requires { Rows n count from to first planes.old }
    ensures { Done (adding algebra count) n (step_of n first + from) planes.old from to planes.new }
{
    let mut s = first;
    for i in from..to {
        add_row(algebra, n, count, i, s, planes);
        s = s.back(n);
    }
}

// The same for rows whose first cells are all in the pass of s: at once, where all their cells add to c.
pub fn add_band(
    algebra: Algebra,
    n: usize,
    count: usize,
    from: usize,
    to: usize,
    s: Turn,
    planes: &mut [u16],
)
    requires { Rows n count from to s planes.old × (to ≤ from + s.point + 1) }
    ensures { Done (adding algebra count) n (step_of n s + from) planes.old from to planes.new }
{
    if sums(count, s.pass) && sums(count, s.pass - 1) {
        add(algebra, n * n, from * n, to * n, planes);
    } else {
        add_rows(algebra, n, count, from, to, s, planes);
    }
}
