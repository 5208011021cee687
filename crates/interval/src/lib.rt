// Two tables closed at once, of the best and the worst word for each link.

#![tactic(auto)]

ghost use Rattle.ranges.specs.Given.{RangeGiven};
ghost use Rattle.refusals.specs.Answer.{answer_number};
ghost use Rattle.interval.specs.inner.RangeChecks.{RangeChecks};

mod inversion;

use checks::check;
use elimination::eliminate;
use inversion::is_inverted;
use refusals::Reason;
use semiring::Algebra;

// All checks of the elimination for the best table, then for the worst, and that no link's worst word betters its best one.
fn check_range(
    algebra: u32,
    size: usize,
    best: &[u16],
    worst: &[u16],
    best_result: &[u16],
    worst_result: &[u16],
) -> Result<Algebra, Reason>
    ensures { RangeChecks result algebra size best.now worst.now best_result.now worst_result.now }
{
    check(algebra, size, best, best_result)?;
    let a = check(algebra, size, worst, worst_result)?;
    if is_inverted(a, size, best, worst) {
        return Err(Reason::RangeInverted);
    }
    Ok(a)
}

// The eliminations of both tables, each into its result. A refusal leaves both results as they were.
pub fn close_range(
    algebra: u32,
    size: usize,
    best: &[u16],
    worst: &[u16],
    best_result: &mut [u16],
    worst_result: &mut [u16],
) -> Result<(), Reason>
    ensures { RangeGiven (answer_number result) algebra size best.now worst.now
        best_result.old worst_result.old best_result.new worst_result.new }
{
    let a = check_range(algebra, size, best, worst, best_result, worst_result)?;
    eliminate(a, size, best, best_result);
    eliminate(a, size, worst, worst_result);
    Ok(())
}
