// The lines of a sheet.
ghost use Rattle.refusals.specs.Reason.{reason_number};
ghost use Rattle.sheet_form.specs.Lines.{refused_line, jobs_line, shown_word, out_line};
ghost use Rattle.text.specs.inner.Printed.{Printed};

use job_reading::Refusal;
use semiring::{Algebra, Distance, PathAlgebra, Steepest};
use text::Page;

// An entry of a job, the job's size and the tick on which the entry leaves.
#[derive(Clone, Copy)]
pub struct Entry {
    pub job: u32,
    pub row: u32,
    pub column: u32,
    pub size: u32,
    pub tick: u32,
}

// The line of a refusal, which is the whole sheet.
pub fn put_refused(page: &mut Page<'_>, why: Refusal)
    ensures { Printed page.old (refused_line (reason_number why.reason) why.line) page.new }
{
    page.text(b"(refused");
    page.spaced(u32::from(why.reason));
    page.spaced(why.line);
    page.text(b")\n");
}

// The first line: jobs, ticks made.
pub fn put_jobs(page: &mut Page<'_>, jobs: u32, ticks: u32)
    ensures { Printed page.old (jobs_line jobs ticks) page.new }
{
    page.text(b"(jobs");
    page.spaced(jobs);
    page.text(b" ticks");
    page.spaced(ticks);
    page.text(b")\n");
}

// None is `-` outside reach.
fn put_word(page: &mut Page<'_>, algebra: Algebra, word: u16)
    ensures { Printed page.old (shown_word algebra word) page.new }
{
    match algebra {
        Algebra::Reach => page.number(u32::from(word)),
        Algebra::Distance => page.unless(Distance::NONE, word),
        Algebra::Steepest => page.unless(Steepest::NONE, word),
    }
}

// The line of an entry and its word.
pub fn put_entry(page: &mut Page<'_>, algebra: Algebra, e: Entry, word: u16)
    ensures { Printed page.old (out_line algebra e.job e.row e.column e.size e.tick word) page.new }
{
    page.text(b"(out");
    page.spaced(e.job);
    page.spaced(e.row);
    page.spaced(e.column);
    page.spaced(e.size);
    page.spaced(e.tick);
    page.text(b" ");
    put_word(page, algebra, word);
    page.text(b")\n");
}
