// The cells of an edge that are in one pass of a job.
ghost use Rattle.std.specs.Prelude.{◌≤◌, ◌<◌};
ghost use Rattle.turns.specs.Turn.{step_of};
ghost use Rattle.turns.specs.Spans.{Banded};

use crate::turn::Turn;

// Cell x of them is at point `last - x`.
#[derive(Clone, Copy)]
pub struct Band {
    pub from: usize,
    pub to: usize,
    pub last: usize,
}

impl Band {
    // Those in pass p, of an edge whose first cell has turn s: its cells are in two passes, of which at most one is such.
    pub fn of(n: usize, s: Turn, p: usize) -> Band
        requires { (n ≤ 32) × (s.point < n) × (1 ≤ s.pass) }
        ensures { Banded n p (step_of n s) result }
    {
        let Turn { pass, point } = s;
        let split = point + 1;
        if pass % 4 == p {
            Band {
                from: 0,
                to: split,
                last: point,
            }
        } else if (pass - 1) % 4 == p {
            Band {
                from: split,
                to: n,
                last: point + n,
            }
        } else {
            Band {
                from: 0,
                to: 0,
                last: 0,
            }
        }
    }
}
