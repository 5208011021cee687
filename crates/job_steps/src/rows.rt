// The step of a row.
ghost use Rattle.std.specs.Prelude.{◌≡◌};
ghost use Rattle.refusals.specs.Answer.{answer_number};
ghost use Rattle.refusals.specs.Tests.{first};
ghost use Rattle.job_steps.specs.inner.Tallies.{tally_tests};
ghost use Rattle.job_steps.specs.inner.Stepped.{RowStepped};

use job_form::{Row, Tally};
use job_reading::{Due, State};
use refusals::Reason;

fn row_tests(tally: Tally, size: u16) -> Result<(), Reason>
    ensures { answer_number result ≡ first 0 (tally_tests tally size) }
{
    if tally.other {
        return Err(Reason::FormNotDue);
    }
    if tally.over {
        return Err(Reason::NumeralOver);
    }
    if tally.count != usize::from(size) {
        return Err(Reason::RowLength);
    }
    if tally.above {
        return Err(Reason::WordAbove);
    }
    Ok(())
}

// The step of a row that was read.
pub fn row_step(s: State, found: Row) -> Result<State, Reason>
    ensures { RowStepped s found.tally found.at result }
{
    match s.due {
        Due::Row => {
            row_tests(found.tally, s.size)?;
            Ok(State {
                due: if s.left <= 1 { Due::Close } else { Due::Row },
                left: s.left.saturating_sub(1),
                at: found.at,
                ..s
            })
        }
        _ => s.undue(),
    }
}
