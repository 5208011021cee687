// Start: a state laid out for a list of jobs.

#![tactic(auto)]

ghost use Rattle.std.specs.Prelude.{◌≡◌, length};
ghost use Rattle.systolic.specs.State.{state_words, state_length};
ghost use Rattle.systolic.specs.Start.{zero_planes};
ghost use Rattle.starting.specs.StartLeft.{StartLeft};

use job_list::{Jobs, any_outside, any_unknown, words_before};
use memory::clear;
use refusals::Reason;
use state_header::{Header, store_header};

// A state with planes 0.
fn lay_out(header: Header, state: &mut [u16])
    requires { length state.old ≡ state_length header.order }
    ensures { state.new
        ≡ state_words header.order header.count header.tick (zero_planes header.order) }
{
    clear(state);
    store_header(header, state);
}

// A list of jobs for an array of the given order, with the number of each job's algebra. A refusal leaves the state as it was.
// Inlined in each call from outside: at small orders one more call would show.
#[inline(always)]
pub fn start(
    algebras: &[u16],
    order: usize,
    sizes: &[u16],
    weights: &[u16],
    state: &mut [u16],
) -> Result<(), Reason>
    ensures { StartLeft result algebras.now order sizes.now weights.now state.old state.new }
{
    if any_unknown(algebras) {
        return Err(Reason::AlgebraUnknown);
    }
    if !(1..=32).contains(&order) {
        return Err(Reason::OrderOutside);
    }
    if !(1..=16).contains(&sizes.len()) {
        return Err(Reason::JobsOutside);
    }
    if algebras.len() != sizes.len() {
        return Err(Reason::JobsOutside);
    }
    if any_outside(order, sizes) {
        return Err(Reason::JobSizeOutside);
    }
    if weights.len() != words_before(sizes, sizes.len()) {
        return Err(Reason::WeightsLength);
    }
    if state.len() != 4 + 3 * (order * order) {
        return Err(Reason::StateLength);
    }
    let jobs = Jobs {
        algebras,
        sizes,
        weights,
    };
    if jobs.any_above() {
        return Err(Reason::WordAbove);
    }
    lay_out(
        Header {
            order: order as u16,
            count: sizes.len() as u16,
            tick: 0,
        },
        state,
    );
    Ok(())
}
