// The sheet of a list that was read: its jobs started, run once to the end, and printed.

#![tactic(auto)]

ghost use Rattle.job_list.specs.Fits.{ListAccepted};
ghost use Rattle.job_list.specs.Jobs.{jobs_of};
ghost use Rattle.text.specs.inner.Printed.{Printed};
ghost use Rattle.sheet_list.specs.inner.Memory.{RunMemory};
ghost use Rattle.sheet_form.specs.Sheet.{whole_run, sheet_from};

use array::{run, scratch_words};
use memory::clear;
use sheet_lines::put_jobs;
use sheet_ticks::{Finished, put_ticks};
use starting::start;
use text::Page;

// With memory of the array's lengths. A list that was read is never refused.
fn print_run(
    page: &mut Page<'_>,
    algebras: &[u16],
    order: usize,
    sizes: &[u16],
    weights: &[u16],
    state: &mut [u16],
    scratch: &mut [u16],
    results: &mut [u16],
)
    requires list_accepted { ListAccepted (jobs_of algebras.now order sizes.now weights.now) }
    requires run_memory { RunMemory order sizes.now state.old scratch.old results.old }
    ensures { Printed page.old
        (sheet_from (jobs_of algebras.now order sizes.now weights.now)
        (whole_run algebras.now order sizes.now weights.now))
        page.new }
{
    let Ok(()) = start(algebras, order, sizes, weights, state) else {
        return;
    };
    // The sheet's definition runs on results of zeros.
    clear(results);
    let Ok(ticks) = run(state, algebras, sizes, weights, 65535, scratch, results) else {
        return;
    };
    put_jobs(page, sizes.len() as u32, u32::from(ticks));
    let jobs = Finished {
        algebras,
        order,
        sizes,
        results,
    };
    put_ticks(page, jobs, usize::from(ticks));
}

pub fn print_list(
    page: &mut Page<'_>,
    algebras: &[u16],
    order: usize,
    sizes: &[u16],
    weights: &[u16],
)
    requires { ListAccepted (jobs_of algebras.now order sizes.now weights.now) }
    ensures { Printed page.old
        (sheet_from (jobs_of algebras.now order sizes.now weights.now)
        (whole_run algebras.now order sizes.now weights.now))
        page.new }
{
    let mut state = [0u16; 3076];
    let mut scratch = [0u16; 64];
    let mut results = [0u16; 16384];
    let state_words = 4 + 3 * (order * order);
    let lines = scratch_words(order);
    let words = weights.len();
    print_run(
        page,
        algebras,
        order,
        sizes,
        weights,
        &mut state[..state_words],
        &mut scratch[..lines],
        &mut results[..words],
    );
}
