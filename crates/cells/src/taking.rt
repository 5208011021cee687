// What a and b take from the new c.
ghost use Rattle.std.specs.Prelude.{◌≡◌, ◌+◌, ◌*◌, ◌≤◌, ◌<◌, length};
ghost use Rattle.turns.specs.Turn.{step_of};
ghost use Rattle.cells.specs.Work.{taking};
ghost use Rattle.cells.specs.Rows.{Row, Done};
ghost use Rattle.cells.specs.Settled.{Took, Column};

use turns::{Columns, Front, Turn};

// The plane that is `plane` words after c takes c in column j of the row at `at`, where a span has j.
fn put(area: usize, plane: usize, at: usize, j: usize, span: Columns, planes: &mut [u16])
    requires { (area ≤ 1024) × (plane ≤ 2 * area) × (at + span.to ≤ area) × (length planes.old ≡ 3 * area) }
    ensures { Took (λ m. m) j plane at span planes.old planes.new }
{
    if span.has(j) {
        planes[plane + (at + j)] = planes[at + j];
    }
}

// a takes the new c in the column that is half of `twice`.
fn a_takes(area: usize, at: usize, twice: usize, moved: Columns, planes: &mut [u16])
    requires { (area ≤ 1024) × (at + moved.to ≤ area) × (length planes.old ≡ 3 * area) }
    ensures { Took (λ j. 2 * j) twice area at moved planes.old planes.new }
{
    if twice % 2 == 0 {
        put(area, area, at, twice / 2, moved, planes);
    }
}

// The column of row i whose point is i, of a row whose first cell is at point k.
fn column(n: usize, i: usize, k: usize) -> usize
    requires { (n ≤ 32) × (i < n) × (k < n) }
    ensures { Column n i k result }
{
    if i <= k { k - i } else { k + n - i }
}

// What a and b of row i take from c.
fn take(n: usize, count: usize, i: usize, s: Turn, planes: &mut [u16])
    requires { Row n count i s planes.old }
    ensures { Done (taking count) n (step_of n s + i) planes.old i (i + 1) planes.new }
{
    let area = n * n;
    let at = i * n;
    let k = s.point;
    let moved = Columns::moved(n, count, s);
    let summed = Columns::summed(n, count, s);
    a_takes(area, at, k, moved, planes);
    a_takes(area, at, k + n, moved, planes);
    put(area, 2 * area, at, column(n, i, k), summed, planes);
}

// All rows.
pub fn take_rows(front: Front, planes: &mut [u16])
    requires { length planes.old ≡ 3 * (front.n * front.n) }
    ensures { Done (taking front.count) front.n (step_of front.n front.head) planes.old 0 front.n planes.new }
{
    let Front { n, count, head } = front;
    let mut s = head;
    for i in 0..n {
        take(n, count, i, s, planes);
        s = s.back(n);
    }
}
