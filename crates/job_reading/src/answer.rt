// What reading a text answers.
use refusals::Reason;

// Why and on which line the reader turned back.
#[derive(Clone, Copy)]
pub struct Refusal {
    pub reason: Reason,
    pub line: u32,
}

// The list that was read.
#[derive(Clone, Copy)]
pub struct List {
    pub order: u16,
    pub jobs: u16,
}
