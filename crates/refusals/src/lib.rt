// Why a call turns back: every reason with its number. Under specs/, tables of tests, of which the first that applies answers.

#![tactic(auto)]

ghost use Rattle.std.specs.Prelude.{◌≡◌};
ghost use Rattle.refusals.specs.Answer.{answer_number};
ghost use Rattle.refusals.specs.Reason.{reason_number};

// In the order of their numbers. Each call's answer holds one by value.
#[derive(Clone, Copy)]
pub enum Reason {
    AlgebraUnknown,
    SizeOutside,
    WeightsLength,
    ResultLength,
    WordAbove,
    OrderOutside,
    JobsOutside,
    JobSizeOutside,
    StateLength,
    StateUnfit,
    JobsDiffer,
    ScratchLength,
    TextLength,
    FormNotDue,
    NumeralOver,
    RowLength,
    TextEnd,
    BufferLength,
    WayUnfit,
    NoWay,
    RoadForm,
    RoadRange,
    RoadCount,
    RangeInverted,
}

// The paper's number of a reason.
impl From<Reason> for u32 {
    ghost from_gives = { λ reason number. number ≡ reason_number reason };

    fn from(reason: Reason) -> u32 {
        match reason {
            Reason::AlgebraUnknown => 1,
            Reason::SizeOutside => 2,
            Reason::WeightsLength => 3,
            Reason::ResultLength => 4,
            Reason::WordAbove => 5,
            Reason::OrderOutside => 6,
            Reason::JobsOutside => 7,
            Reason::JobSizeOutside => 8,
            Reason::StateLength => 9,
            Reason::StateUnfit => 10,
            Reason::JobsDiffer => 11,
            Reason::ScratchLength => 12,
            Reason::TextLength => 13,
            Reason::FormNotDue => 14,
            Reason::NumeralOver => 15,
            Reason::RowLength => 16,
            Reason::TextEnd => 17,
            Reason::BufferLength => 18,
            Reason::WayUnfit => 19,
            Reason::NoWay => 20,
            Reason::RoadForm => 21,
            Reason::RoadRange => 22,
            Reason::RoadCount => 23,
            Reason::RangeInverted => 24,
        }
    }
}

// The number of a call's answer, 0 where the call was accepted.
pub fn answer_number<T: Copy>(answer: Result<T, Reason>) -> u32
    ensures { result ≡ answer_number answer }
{
    match answer {
        Ok(_) => 0,
        Err(reason) => u32::from(reason),
    }
}
