// Ticks of a state that runs, in its own planes.

#![tactic(auto)]

ghost use Rattle.state_ticks.specs.inner.Runnable.{Runnable, RunLeft};

use job_list::Jobs;
use state_header::{Header, store_header};
use ticks::{Ticks, advance};

// It makes `made` ticks.
pub fn proceed(
    header: Header,
    made: u16,
    jobs: &Jobs,
    scratch: &mut [u16],
    state: &mut [u16],
    results: &mut [u16],
)
    requires { Runnable header made jobs.now.algebras.now jobs.now.sizes.now jobs.now.weights.now scratch.old state.old results.old }
    ensures { RunLeft made jobs.now.algebras.now jobs.now.sizes.now jobs.now.weights.now state.old
        results.old state.new results.new }
{
    let n = usize::from(header.order);
    let from = usize::from(header.tick);
    let to = from + usize::from(made);
    advance(
        n,
        Ticks { from, to },
        jobs,
        scratch,
        &mut state[4..],
        results,
    );
    store_header(header.next_tick(made), state);
}
