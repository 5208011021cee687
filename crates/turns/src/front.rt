// Where the array is on a tick.
ghost use Rattle.turns.specs.Turn.{Head};

use crate::turn::Turn;

// An array of order n on `count` jobs, on a tick on which cell (0, 0) has turn `head`.
#[derive(Clone, Copy)]
pub struct Front {
    pub n: usize,
    pub count: usize,
    pub head: Turn,
    ghost on_tick: { Head n count head },
}
