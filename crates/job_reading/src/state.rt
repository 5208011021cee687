// How far a text has been read.
ghost use Rattle.std.specs.Prelude.{◌≡◌};
ghost use Rattle.std.specs.Result.{IsErrAnd};
ghost use Rattle.refusals.specs.Reason.{reason_number};
ghost use Rattle.job_reading.specs.Steps.{for_due};

use refusals::Reason;
use semiring::Algebra;

// The form that is due.
#[derive(Clone, Copy)]
pub enum Due {
    // `(list`
    List,
    // `(job`, or the bracket that closes the list
    Job,
    // `(row`
    Row,
    // The bracket that closes a job
    Close,
    // The list is closed
    Nothing,
}

#[derive(Clone, Copy)]
pub struct State {
    pub due: Due,
    pub order: u16,
    pub jobs: u16,
    // Of the last job: its algebra, its size, and how many of its rows are still due.
    pub algebra: Algebra,
    pub size: u16,
    pub left: u16,
    // Where the next word goes.
    pub at: usize,
}

impl State {
    // The answer to a line whose form is not due: after the end no line is.
    pub fn undue(self) -> Result<State, Reason>
        ensures { IsErrAnd result (λ reason. reason_number reason ≡ for_due self.due 14 14 14 14) }
    {
        match self.due {
            Due::Nothing => Err(Reason::TextEnd),
            _ => Err(Reason::FormNotDue),
        }
    }
}
