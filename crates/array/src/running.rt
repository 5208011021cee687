// Run: ticks of a started array.
ghost use Rattle.std.specs.Prelude.{◌≡◌, ◌≤◌};
ghost use Rattle.systolic.specs.State.{scratch_length};
ghost use Rattle.systolic.specs.Run.{ran};
ghost use Rattle.array.specs.RunAnswer.{Answered};

use job_list::{Jobs, any_outside, any_unknown, words_before};
use memory::clear;
use refusals::Reason;
use state_header::read_header;
use state_ticks::proceed;

// Two lines: what comes in at the top and at the left.
pub fn scratch_words(order: usize) -> usize
    requires { order ≤ 32 }
    ensures { result ≡ scratch_length order }
{
    2 * order
}

// The ticks made: the smaller of the allowance and the ticks left. A refusal leaves state, results and scratch as they were; an accepted run
// leaves the scratch zero.
pub fn run(
    state: &mut [u16],
    algebras: &[u16],
    sizes: &[u16],
    weights: &[u16],
    allowance: u16,
    scratch: &mut [u16],
    results: &mut [u16],
) -> Result<u16, Reason>
    ensures { Answered result state.new scratch.new results.new
        (ran state.old algebras.now sizes.now weights.now allowance scratch.old
        results.old) }
{
    let header = read_header(state)?;
    let order = usize::from(header.order);
    let count = usize::from(header.count);
    if sizes.len() != count {
        return Err(Reason::JobsDiffer);
    }
    if algebras.len() != count {
        return Err(Reason::JobsDiffer);
    }
    if any_unknown(algebras) {
        return Err(Reason::AlgebraUnknown);
    }
    if any_outside(order, sizes) {
        return Err(Reason::JobSizeOutside);
    }
    let words = words_before(sizes, sizes.len());
    if weights.len() != words {
        return Err(Reason::WeightsLength);
    }
    if scratch.len() != scratch_words(order) {
        return Err(Reason::ScratchLength);
    }
    if results.len() != words {
        return Err(Reason::ResultLength);
    }
    let jobs = Jobs {
        algebras,
        sizes,
        weights,
    };
    if jobs.any_above() {
        return Err(Reason::WordAbove);
    }
    let made = allowance.min(header.ticks_left());
    proceed(header, made, &jobs, scratch, state, results);
    clear(scratch);
    Ok(made)
}
