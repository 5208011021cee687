// Cards of test 12: a run takes two lines of scratch and leaves them zero.
ghost use Rattle.std.specs.Prelude.{◌≤◌};

use crate::machine::{Jobs, Machine};
use memory::same_words;

// A run of at most seven ticks on an array of order 3 with a scratch of C nines, which leaves it full of the given word.
pub fn lends<const C: usize>(answer: Result<u16, u32>, word: u16) -> bool
    requires { C ≤ 18 }
{
    let jobs = Jobs {
        algebras: &[1],
        order: 3,
        sizes: &[3],
        weights: &[0, 4, 9, 65535, 0, 3, 1, 65535, 0],
    };
    let mut scratch = [9; C];
    let mut array = Machine {
        state: &mut [9; 31],
        scratch: &mut scratch,
        results: &mut [9; 9],
    };
    array.start(&jobs) == Ok(())
        && array.run(&jobs, 7) == answer
        && same_words(&scratch, &[word; C])
}

// Two lines; a word less, a word more, and document 01's 2N².
pub fn two_lines() -> bool {
    lends::<6>(Ok(7), 0)
        && lends::<5>(Err(12), 9)
        && lends::<7>(Err(12), 9)
        && lends::<18>(Err(12), 9)
}
