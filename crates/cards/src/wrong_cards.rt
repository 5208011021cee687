// Cards that expect what is wrong, each in one thing: they must be told wrong, or another card could pass by mistake.
use crate::limit_cards::{at_tick, leaves};
use crate::listing_card::prints;
use crate::machine::{Jobs, Machine, starts};
use crate::scratch_cards::lends;
use crate::table_cards::{closes_bytes, closes_over};
use crate::verdict::tell_wrong;
use crate::way_cards::gives;
use std::io;

const CELL: Jobs<'static> = Jobs {
    algebras: &[1],
    order: 1,
    sizes: &[1],
    weights: &[7],
};

// A memory that already holds what is expected.
fn table(weight: u16, expected: u16) -> bool {
    closes_over(0, 1, [weight], [1], [expected])
}

fn start(answer: Result<(), u32>) -> bool {
    starts(&CELL, &mut [9; 7]) == answer
}

// One cell of 4 ticks in all, run to its end from the given tick; its word 0 leaves on tick 3.
fn cell(tick: u16, ticks: u16, expected: u16) -> bool {
    let mut array = Machine {
        state: &mut [1, 0, 1, tick, 0, 0, 0],
        scratch: &mut [9; 2],
        results: &mut [9],
    };
    array.makes(&CELL, 9, ticks, &[expected])
}

pub fn tell_all(rt: &HostRuntime) -> io::Result<()> {
    tell_wrong(rt, "a table's word", table(0, 0))?;
    tell_wrong(rt, "a refused table", table(2, 1))?;
    // the one word of a table of reach is 1, low byte first
    tell_wrong(rt, "a table's bytes", closes_bytes(0, 1, [0, 0], [0, 1]))?;
    tell_wrong(rt, "a start's number", start(Err(6)))?;
    tell_wrong(rt, "a run's ticks", cell(0, 3, 0))?;
    tell_wrong(rt, "a run's result", cell(0, 4, 9))?;
    tell_wrong(rt, "a refused run", cell(5, 0, 9))?;
    tell_wrong(rt, "a run's state", leaves(at_tick(5), 0, at_tick(6), 0))?;
    tell_wrong(rt, "a run's scratch", leaves(at_tick(5), 0, at_tick(5), 9))?;
    tell_wrong(rt, "a scratch of 2N words more", lends::<12>(Ok(7), 0))?;
    tell_wrong(rt, "a scratch not cleared", lends::<6>(Ok(7), 9))?;
    tell_wrong(rt, "a sheet's byte", prints(b"", b"(refused 17 1)\n"))?;
    tell_wrong(rt, "a sheet's length", prints(b"", b"(refused 17 0)"))?;
    tell_wrong(
        rt,
        "a way's points",
        gives(0, 3, Ok(3), [0, 3, 3, 9], [0, 1, 2, 9]),
    )?;
    let ways = [2, 9, 9, 9];
    tell_wrong(rt, "a way's length", gives(2, 2, Ok(2), ways, ways))?;
    tell_wrong(rt, "a way's number", gives(3, 0, Err(19), [9; 4], [9; 4]))
}
