// The line that opens a list, and the brackets that close a job and the list.
ghost use Rattle.std.specs.Prelude.{◌≡◌, IfOk};
ghost use Rattle.refusals.specs.Answer.{answer_number};
ghost use Rattle.refusals.specs.Tests.{first};
ghost use Rattle.job_form.specs.Tokens.{value_of};
ghost use Rattle.job_form.specs.Forms.{list, close};
ghost use Rattle.job_reading.specs.Steps.{list_tests};
ghost use Rattle.job_steps.specs.inner.Stepped.{Stepped};

use job_form::Token;
use job_reading::{Due, State};
use refusals::Reason;

// The order that a list's line gives.
fn list_tests(order: Token) -> Result<u16, Reason>
    ensures tested { answer_number result ≡ first 0 (list_tests order) }
    ensures value { IfOk result (λ n. n ≡ value_of order) }
{
    match order {
        Token::Number(n) => {
            if n < 1 || 32 < n {
                return Err(Reason::OrderOutside);
            }
            Ok(n)
        }
        Token::Over => Err(Reason::NumeralOver),
        Token::Dash | Token::Name(_) | Token::Other => Err(Reason::FormNotDue),
    }
}

pub fn list_step(s: State, order: Token) -> Result<State, Reason>
    ensures { Stepped s (list order) result }
{
    match s.due {
        Due::List => {
            let order = list_tests(order)?;
            Ok(State {
                due: Due::Job,
                order,
                size: 0,
                left: 0,
                ..s
            })
        }
        _ => s.undue(),
    }
}

pub fn close_step(s: State) -> Result<State, Reason>
    ensures { Stepped s close result }
{
    match s.due {
        Due::Job => {
            if s.jobs == 0 {
                return Err(Reason::JobsOutside);
            }
            Ok(State {
                due: Due::Nothing,
                ..s
            })
        }
        Due::Close => Ok(State { due: Due::Job, ..s }),
        _ => s.undue(),
    }
}
