// What one line does to the state and the buffers.

#![tactic(auto)]

ghost use Rattle.job_steps.specs.inner.Stepped.{Advanced};

use job_form::{Line, Row, Tally, read_line, read_row};
use job_reading::State;
use job_steps::{close_step, job_step, list_step, row_step};
use refusals::Reason;

// The step of a line, with the buffers after it where it is accepted.
pub fn advance(
    s: State,
    line: &[u8],
    algebras: &mut [u16],
    sizes: &mut [u16],
    weights: &mut [u16],
) -> Result<State, Reason>
    ensures { Advanced line.now s algebras.old sizes.old weights.old result
        algebras.new sizes.new weights.new }
{
    match read_line(line) {
        Line::List { order } => list_step(s, order),
        Line::Job { size, algebra } => job_step(s, size, algebra, algebras, sizes),
        Line::Row { from } => {
            let row = read_row(line, from, s.algebra, s.at, weights);
            row_step(s, row)
        }
        Line::EmptyRow => {
            let row = Row {
                tally: Tally::new(),
                at: s.at,
            };
            row_step(s, row)
        }
        Line::Close => close_step(s),
        Line::Skipped => Ok(s),
        Line::Unknown => s.undue(),
    }
}
