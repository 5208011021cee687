// Two tables closed at once, for other languages.
ghost use Rattle.ranges.specs.Given.{RangeGiven};

use interval::close_range;
use refusals::answer_number;

// It returns 0, or the refusal's number, and then leaves both results as they were.
pub fn interval_close_range(
    algebra: u32,
    size: usize,
    best: &[u16],
    worst: &[u16],
    best_result: &mut [u16],
    worst_result: &mut [u16],
) -> u32
    ensures { RangeGiven result algebra size best.now worst.now
        best_result.old worst_result.old best_result.new worst_result.new }
{
    answer_number(close_range(algebra, size, best, worst, best_result, worst_result))
}
