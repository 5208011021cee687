// Card B11: the borders of each number, and runs that make no tick.
use crate::machine::{Jobs, Machine, starts};
use memory::same_words;
use paths::eliminate;

fn sizes() -> bool {
    let weights = [0; 16384];
    let mut result = [9; 16384];
    eliminate(1, 128, &weights, &mut result).is_ok()
        && eliminate(1, 129, &weights, &mut result).map_err(u32::from) == Err(2)
}

// What a start of an array of one cell answers, but for the order of its list.
fn cell(algebras: &[u16], sizes: &[u16], weights: &[u16]) -> Result<(), u32> {
    let jobs = Jobs {
        algebras,
        order: 1,
        sizes,
        weights,
    };
    starts(&jobs, &mut [9; 7])
}

fn orders() -> bool {
    let mut jobs = Jobs {
        algebras: &[1],
        order: 32,
        sizes: &[32],
        weights: &[0; 1024],
    };
    let mut state = [9; 3076];
    let largest = starts(&jobs, &mut state);
    jobs.order = 33;
    largest == Ok(()) && starts(&jobs, &mut state) == Err(6)
}

fn counts() -> bool {
    cell(&[1; 16], &[1; 16], &[0; 16]) == Ok(()) && cell(&[1; 17], &[1; 17], &[0; 17]) == Err(7)
}

fn words() -> bool {
    eliminate(0, 1, &[2], &mut [9]).map_err(u32::from) == Err(5)
        && cell(&[0], &[1], &[2]) == Err(5)
        // the word of a reach job alone counts, wherever it stands
        && cell(&[1, 0], &[1, 1], &[2, 1]) == Ok(())
        && cell(&[1, 0], &[1, 1], &[2, 2]) == Err(5)
}

// Allowance 0, and a finished array given 5.
fn no_ticks() -> bool {
    let jobs = Jobs {
        algebras: &[1],
        order: 1,
        sizes: &[1],
        weights: &[7],
    };
    let mut array = Machine {
        state: &mut [9; 7],
        scratch: &mut [9; 2],
        results: &mut [9; 1],
    };
    array.start(&jobs) == Ok(())
        && array.makes(&jobs, 0, 0, &[9])
        && array.makes(&jobs, 65535, 4, &[0])
        && array.makes(&jobs, 5, 0, &[0])
}

// One job of size 2 for an array of order 2.
const PAIR: Jobs<'static> = Jobs {
    algebras: &[1],
    order: 2,
    sizes: &[2],
    weights: &[0, 5, 65535, 0],
};

// A run of it that makes no tick and changes no result; it leaves the given state, and the scratch full of the given word.
pub fn leaves(mut state: [u16; 16], allowance: u16, after: [u16; 16], word: u16) -> bool {
    let mut scratch = [9; 4];
    let mut array = Machine {
        state: &mut state,
        scratch: &mut scratch,
        results: &mut [9, 8, 7, 6],
    };
    array.makes(&PAIR, allowance, 0, &[9, 8, 7, 6])
        && same_words(&state, &after)
        && same_words(&scratch, &[word; 4])
}

fn unchanged(state: [u16; 16], allowance: u16) -> bool {
    leaves(state, allowance, state, 0)
}

// A state of 10 ticks in all whose planes hold any words.
pub fn at_tick(tick: u16) -> [u16; 16] {
    [
        2, 0, 1, tick, 65535, 7, 0, 40000, 3, 1, 65534, 9, 8, 2, 65535, 6,
    ]
}

// Allowance 0 on a fresh state, on half-run ones and on a finished one, and allowances on a finished one.
pub fn zero_ticks() -> bool {
    let mut fresh = [9; 16];
    starts(&PAIR, &mut fresh) == Ok(())
        && unchanged(fresh, 0)
        && unchanged(at_tick(5), 0)
        && unchanged(at_tick(10), 0)
        && unchanged(at_tick(10), 5)
        && unchanged(at_tick(10), 65535)
}

pub fn all() -> bool {
    sizes() && orders() && counts() && words() && no_ticks()
}
