// The columns of a row that do the same. Those up to the point of its first cell are in that cell's pass, the others in
// the pass before.
ghost use Rattle.std.specs.Prelude.{◌≡◌, ◌&&◌, ◌-◌, ◌≤◌, ◌<◌, Bool, leb, ltb};
ghost use Rattle.turns.specs.Turn.{live as livePass, sums as sumsIn, step_of};
ghost use Rattle.turns.specs.Spans.{Spans, Parted};

use crate::passes::{live, sums};
use crate::turn::Turn;

// Not a `Range`, which is not `Copy`: a row's span is passed on by value.
#[derive(Clone, Copy)]
pub struct Columns {
    pub from: usize,
    pub to: usize,
}

impl Columns {
    // The cells whose pass meets a test, of a row whose first cell has turn s.
    fn of<F: Fn(usize) -> bool>(n: usize, s: Turn, test: F) -> Columns
        requires { (s.point < n) × (1 ≤ s.pass) × F.pre test s.pass × F.pre test (s.pass - 1) }
        ensures { (here behind : Bool) × F.post test s.pass here × F.post test (s.pass - 1) behind × Parted n s.point here behind result }
    {
        let split = s.point + 1;
        Columns {
            from: if test(s.pass) { 0 } else { split },
            to: if test(s.pass - 1) { n } else { split },
        }
    }

    // The cells that make a step.
    pub fn moved(n: usize, count: usize, s: Turn) -> Columns
        requires { (count ≤ 16) × (s.point < n) × (1 ≤ s.pass) }
        ensures { Spans n (livePass count) (step_of n s) result }
    {
        Columns::of(n, s, |pass| live(count, pass))
    }

    // The cells that add to c.
    pub fn summed(n: usize, count: usize, s: Turn) -> Columns
        requires { (count ≤ 16) × (s.point < n) × (1 ≤ s.pass) }
        ensures { Spans n (sumsIn count) (step_of n s) result }
    {
        Columns::of(n, s, |pass| sums(count, pass))
    }

    pub fn has(self, j: usize) -> bool
        ensures { result ≡ (leb self.from j && ltb j self.to) }
    {
        self.from <= j && j < self.to
    }
}
