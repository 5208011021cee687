// The line that opens a job.
ghost use Rattle.std.specs.Prelude.{◌≡◌, IfOk};
ghost use Rattle.refusals.specs.Answer.{answer_number};
ghost use Rattle.refusals.specs.Tests.{first};
ghost use Rattle.job_form.specs.Tokens.{value_of, algebra_named};
ghost use Rattle.job_form.specs.declared.tokens.Token.TheVariants.{Number};
ghost use Rattle.job_reading.specs.Steps.{range_tests, job_tests};
ghost use Rattle.job_steps.specs.inner.Stepped.{Noted, JobStepped};

use job_form::{Token, store};
use job_reading::{Due, State};
use refusals::Reason;
use semiring::Algebra;

// The tests of a size that is a number, and of the count of jobs.
fn range_tests(order: u16, jobs: u16, size: u16) -> Result<(), Reason>
    ensures { answer_number result ≡ first 0 (range_tests order jobs (Number size)) }
{
    if size < 1 || order < size {
        return Err(Reason::JobSizeOutside);
    }
    if 16 <= jobs {
        return Err(Reason::JobsOutside);
    }
    Ok(())
}

// The size and the algebra that a job's line gives.
fn job_tests(order: u16, jobs: u16, size: Token, algebra: Token) -> Result<(u16, Algebra), Reason>
    ensures tested { answer_number result ≡ first 0 (job_tests order jobs size algebra) }
    ensures values { IfOk result (λ job. (job.0 ≡ value_of size) × (job.1 ≡ algebra_named algebra)) }
{
    let Token::Name(a) = algebra else {
        return Err(Reason::FormNotDue);
    };
    match size {
        Token::Number(n) => {
            range_tests(order, jobs, n)?;
            Ok((n, a))
        }
        Token::Over => Err(Reason::NumeralOver),
        Token::Dash | Token::Name(_) | Token::Other => Err(Reason::FormNotDue),
    }
}

// Stores the algebra and the size of a job that comes after `jobs` others.
fn note(jobs: u16, a: Algebra, size: u16, algebras: &mut [u16], sizes: &mut [u16])
    ensures { Noted jobs a size algebras.old sizes.old algebras.new sizes.new }
{
    let number = u32::from(a) as u16;
    store(algebras, usize::from(jobs), number);
    store(sizes, usize::from(jobs), size);
}

pub fn job_step(
    s: State,
    size: Token,
    algebra: Token,
    algebras: &mut [u16],
    sizes: &mut [u16],
) -> Result<State, Reason>
    ensures { JobStepped s size algebra algebras.old sizes.old result algebras.new sizes.new }
{
    match s.due {
        Due::Job => {
            let (n, a) = job_tests(s.order, s.jobs, size, algebra)?;
            note(s.jobs, a, n, algebras, sizes);
            Ok(State {
                due: Due::Row,
                jobs: s.jobs + 1,
                algebra: a,
                size: n,
                left: n,
                ..s
            })
        }
        _ => s.undue(),
    }
}
