// The array's calls for other languages.
ghost use Rattle.systolic.specs.Run.{ran};
ghost use Rattle.raudvisk.specs.ArrayCalls.{StartedHost, RanHost};

use array::run;
use refusals::answer_number;
use starting::start;

// It returns 0, or the refusal's number, and then leaves the state as it was.
pub fn array_start(
    algebras: &[u16],
    order: usize,
    sizes: &[u16],
    weights: &[u16],
    state: &mut [u16],
) -> u32
    ensures { StartedHost result algebras.now order sizes.now weights.now state.old state.new }
{
    answer_number(start(algebras, order, sizes, weights, state))
}

// It returns 0 and writes the ticks made, or returns the refusal's number, and then leaves all as it was.
pub fn array_run(
    state: &mut [u16],
    algebras: &[u16],
    sizes: &[u16],
    weights: &[u16],
    allowance: u16,
    scratch: &mut [u16],
    results: &mut [u16],
    made: &mut u16,
) -> u32
    ensures { RanHost result made.old made.new state.new scratch.new results.new
        (ran state.old algebras.now sizes.now weights.now allowance scratch.old
        results.old) }
{
    match run(state, algebras, sizes, weights, allowance, scratch, results) {
        Ok(ticks) => {
            *made = ticks;
            0
        }
        Err(reason) => u32::from(reason),
    }
}
