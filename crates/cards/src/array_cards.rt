// Cards of the array.
use crate::machine::{Jobs, Machine, starts};

// Its word leaves on tick 3, 4 ticks in all.
pub fn one_cell() -> bool {
    let jobs = Jobs {
        algebras: &[1],
        order: 1,
        sizes: &[1],
        weights: &[7],
    };
    let mut array = Machine {
        state: &mut [9; 7],
        scratch: &mut [9; 2],
        results: &mut [9; 1],
    };
    array.start(&jobs) == Ok(()) && array.makes(&jobs, 3, 3, &[9]) && array.makes(&jobs, 9, 1, &[0])
}

// The links of B7 through an array of order 3: far from 0 to 2, none back.
pub fn far() -> bool {
    let jobs = Jobs {
        algebras: &[1],
        order: 3,
        sizes: &[3],
        weights: &[0, 40000, 65535, 65535, 0, 25535, 65535, 65535, 0],
    };
    let closed = [0, 40000, 65534, 65535, 0, 25535, 65535, 65535, 0];
    let mut array = Machine {
        state: &mut [9; 31],
        scratch: &mut [9; 6],
        results: &mut [9; 9],
    };
    array.start(&jobs) == Ok(()) && array.makes(&jobs, 16, 16, &closed)
}

// Sizes 3 and 2 nose to tail: job 1's words leave on ticks 23, 24, 24 and 25 of 28.
pub fn two_jobs() -> bool {
    let jobs = Jobs {
        algebras: &[1, 1],
        order: 3,
        sizes: &[3, 2],
        weights: &[0, 4, 9, 65535, 0, 3, 1, 65535, 0, 0, 5, 6, 0],
    };
    let mut array = Machine {
        state: &mut [9; 31],
        scratch: &mut [9; 6],
        results: &mut [9; 13],
    };
    array.start(&jobs) == Ok(())
        && array.makes(&jobs, 23, 23, &[0, 4, 7, 4, 0, 3, 1, 5, 0, 9, 9, 9, 9])
        && array.makes(&jobs, 1, 1, &[0, 4, 7, 4, 0, 3, 1, 5, 0, 0, 9, 9, 9])
        && array.makes(&jobs, 1, 1, &[0, 4, 7, 4, 0, 3, 1, 5, 0, 0, 5, 6, 9])
        && array.makes(&jobs, 1, 1, &[0, 4, 7, 4, 0, 3, 1, 5, 0, 0, 5, 6, 0])
        && array.makes(&jobs, 99, 2, &[0, 4, 7, 4, 0, 3, 1, 5, 0, 0, 5, 6, 0])
}

// Links over five points whose ways need all three passes, and the closed table. With two passes the way from 0 to 2 would
// have length 7 and not 6.
pub fn third_pass() -> bool {
    let jobs = Jobs {
        algebras: &[1],
        order: 5,
        sizes: &[5],
        weights: &[
            0, 65535, 7, 65535, 2, 65535, 0, 7, 1, 1, 2, 1, 0, 2, 1, 65535, 65535, 2, 0, 7, 2, 1,
            7, 65535, 0,
        ],
    };
    let closed = [
        0, 3, 6, 4, 2, 3, 0, 3, 1, 1, 2, 1, 0, 2, 1, 4, 3, 2, 0, 3, 2, 1, 4, 2, 0,
    ];
    let mut array = Machine {
        state: &mut [9; 79],
        scratch: &mut [9; 10],
        results: &mut [9; 25],
    };
    array.start(&jobs) == Ok(()) && array.makes(&jobs, 100, 28, &closed)
}

// The tables of jobs in reach, steepest and distance, nose to tail.
pub fn three_algebras() -> bool {
    let jobs = Jobs {
        algebras: &[0, 2, 1],
        order: 3,
        sizes: &[2, 3, 2],
        weights: &[
            0, 1, 0, 0, 0, 4, 9, 65535, 0, 3, 1, 65535, 0, 0, 5, 65535, 0,
        ],
    };
    let closed = [1, 1, 0, 1, 0, 4, 4, 3, 0, 3, 1, 4, 0, 0, 5, 65535, 0];
    let mut array = Machine {
        state: &mut [9; 31],
        scratch: &mut [9; 6],
        results: &mut [9; 17],
    };
    array.start(&jobs) == Ok(()) && array.makes(&jobs, 99, 40, &closed)
}

// One job of one point for each algebra.
fn cells(algebras: &[u16]) -> Jobs {
    Jobs {
        algebras,
        order: 1,
        sizes: &[1],
        weights: &[7],
    }
}

// One cell whose state has the given second word, run with the given algebras.
fn run(second: u16, algebras: &[u16]) -> Result<u16, u32> {
    let mut array = Machine {
        state: &mut [1, second, 1, 0, 0, 0, 0],
        scratch: &mut [9; 2],
        results: &mut [9; 1],
    };
    array.run(&cells(algebras), 4)
}

// An algebra unknown, also one too many, which start finds before their count and run after it; one too many; a state with an
// algebra of its own.
pub fn algebras() -> bool {
    let mut state = [9; 7];
    starts(&cells(&[2]), &mut state) == Ok(())
        && starts(&cells(&[3]), &mut state) == Err(1)
        && starts(&cells(&[2, 3]), &mut state) == Err(1)
        && starts(&cells(&[2, 2]), &mut state) == Err(7)
        && run(0, &[2]).is_ok()
        && run(0, &[3]) == Err(1)
        && run(0, &[2, 3]) == Err(11)
        && run(2, &[2]) == Err(10)
}
