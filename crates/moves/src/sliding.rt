// a one place to the right and b one row down, in place. What comes in at the edges is put in after.
ghost use Rattle.std.specs.Prelude.{◌≡◌, ◌*◌, length};
ghost use Rattle.turns.specs.Turn.{step_of};
ghost use Rattle.moves.specs.Moved.{Movable, Moved};
ghost use Rattle.moves.specs.Slid.{Slid};

use turns::{Columns, Front, live};

// The words from `at` to `end`, each taking the one d places before it.
fn shift(d: usize, at: usize, end: usize, words: &mut [u16])
    requires { Movable d at end words.old }
    ensures { Moved d words.old at end words.new }
{
    for p in (at..end).rev() {
        words[p] = words[p - d];
    }
}

// Row by row, from the last: the cells that make a step.
fn slide_rows(front: Front, planes: &mut [u16])
    requires { length planes.old ≡ 3 * (front.n * front.n) }
    ensures { Slid front.n front.count (step_of front.n front.head) planes.old 0 planes.new }
{
    let Front { n, count, head } = front;
    let area = n * n;
    let mut s = head.to_last(n);
    for i in (0..n).rev() {
        let Columns { from, to } = Columns::moved(n, count, s);
        let a = area + i * n;
        shift(1, a + from, a + to, planes);
        let b = a + area;
        shift(n, b + from, b + to, planes);
        s = s.next(n);
    }
}

// No cell is more than two passes behind the first: where that pass is live too, whole planes move.
pub fn slide(front: Front, planes: &mut [u16])
    requires { length planes.old ≡ 3 * (front.n * front.n) }
    ensures { Slid front.n front.count (step_of front.n front.head) planes.old 0 planes.new }
{
    let Front { n, count, head } = front;
    if live(count, head.pass) && live(count, head.pass - 2) {
        let area = n * n;
        shift(1, area, 2 * area, planes);
        shift(n, 2 * area, 3 * area, planes);
    } else {
        slide_rows(front, planes);
    }
}
