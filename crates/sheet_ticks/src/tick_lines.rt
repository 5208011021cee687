// What is printed for each tick: the entries that leave on it, row by row.
ghost use Rattle.std.specs.Prelude.{◌≤◌, ◌<◌};
ghost use Rattle.text.specs.Joined.{joined};
ghost use Rattle.text.specs.inner.Printed.{Printed};
ghost use Rattle.sheet_ticks.specs.inner.Leaving.{leaving_line, LeavingFits, lines_on, Ready};

use job_list::{algebra_of, words_before};
use semiring::Algebra;
use sheet_lines::{Entry, put_entry};
use text::Page;

// Jobs that were run on an array of that order, and the results that they left.
#[derive(Clone, Copy)]
pub struct Finished<'a> {
    pub algebras: &'a [u16],
    pub order: usize,
    pub sizes: &'a [u16],
    pub results: &'a [u16],
}

// On a tick those entries of one job leave whose row and column have one sum.
#[derive(Clone, Copy)]
pub struct Leaving {
    pub job: usize,
    pub size: usize,
    pub sum: usize,
    pub tick: usize,
}

// Row i, from the job's part of the results.
fn put_row(page: &mut Page<'_>, algebra: Algebra, l: Leaving, part: &[u16], i: usize)
    requires { LeavingFits l part.now × (i < l.size) }
    ensures { Printed page.old (leaving_line algebra l part.now i) page.new }
{
    if l.sum < i {
        return;
    }
    let k = l.sum - i;
    if l.size <= k {
        return;
    }
    let place = i * l.size + k;
    let entry = Entry {
        job: l.job as u32,
        row: i as u32,
        column: k as u32,
        size: l.size as u32,
        tick: l.tick as u32,
    };
    put_entry(page, algebra, entry, part[place]);
}

fn put_rows(page: &mut Page<'_>, algebra: Algebra, l: Leaving, part: &[u16])
    requires { LeavingFits l part.now }
    ensures { Printed page.old (joined l.size (leaving_line algebra l part.now)) page.new }
{
    for i in 0..l.size {
        put_row(page, algebra, l, part, i);
    }
}

// Entry (i, k) of job q leaves on tick 4Nq + 4N - 1 + i + k, and i + k is below 4N.
fn put_tick(page: &mut Page<'_>, jobs: Finished<'_>, t: usize)
    requires { Ready jobs × (t < 65535) }
    ensures { Printed page.old (lines_on jobs.entry t) page.new }
{
    let span = 4 * jobs.order;
    if t + 1 < span {
        return;
    }
    let since = t + 1 - span;
    let job = since / span;
    if jobs.sizes.len() <= job {
        return;
    }
    let algebra = algebra_of(jobs.algebras, job);
    let size = usize::from(jobs.sizes[job]);
    let start = words_before(jobs.sizes, job);
    let end = start + size * size;
    let leaving = Leaving {
        job,
        size,
        sum: since % span,
        tick: t,
    };
    put_rows(page, algebra, leaving, &jobs.results[start..end]);
}

pub fn put_ticks(page: &mut Page<'_>, jobs: Finished<'_>, ticks: usize)
    requires { Ready jobs × (ticks ≤ 65535) }
    ensures { Printed page.old (joined ticks (lines_on jobs.entry)) page.new }
{
    for t in 0..ticks {
        put_tick(page, jobs, t);
    }
}
