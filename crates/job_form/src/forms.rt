// The form that a line has.
ghost use Rattle.std.specs.Prelude.{◌≡◌, ◌≤◌, ◌<◌, length};
ghost use Rattle.text.specs.Pieces.{parts};
ghost use Rattle.text.specs.inner.Scan.{parts_from};
ghost use Rattle.job_form.specs.Forms.{opening as openingOf, head_of, closing, list_form, job_form, row_form, alone, form_of};
ghost use Rattle.job_form.specs.inner.Said.{form_in, Says};
ghost use Rattle.job_form.specs.inner.Worded.{Worded};

use crate::tokens::{Token, token_of};
use text::{Part, equal, next_part};

// What the first part of a line announces.
#[derive(Clone, Copy)]
pub enum Head {
    Comment,
    List,
    Job,
    Row,
    EmptyRow,
    Close,
    Unknown,
}

// What a line says. The words of a row are the parts from `from` on.
#[derive(Clone, Copy)]
pub enum Line {
    List { order: Token },
    Job { size: Token, algebra: Token },
    Row { from: usize },
    EmptyRow,
    Close,
    Skipped,
    Unknown,
}

// A word of a row, and the part after it.
#[derive(Clone, Copy)]
pub struct Word {
    pub token: Token,
    pub next: Option<Part>,
}

#[tactic(auto, unfolding(crate::specs::Forms::head_of))]
fn head_of(part: &[u8]) -> Head
    requires { 0 < length part.now }
    ensures { result ≡ head_of part.now }
{
    if part[0] == b';' {
        return Head::Comment;
    }
    opening(part)
}

// By ifs: a match on the texts would be proved byte by byte, in 23 arms.
#[tactic(auto, unfolding(crate::specs::Forms::opening))]
fn opening(part: &[u8]) -> Head
    ensures { result ≡ openingOf part.now }
{
    if equal(part, b"(list") {
        return Head::List;
    }
    if equal(part, b"(job") {
        return Head::Job;
    }
    if equal(part, b"(row") {
        return Head::Row;
    }
    if equal(part, b"(row)") {
        return Head::EmptyRow;
    }
    if equal(part, b")") {
        return Head::Close;
    }
    Head::Unknown
}

fn list_line(line: &[u8], from: usize) -> Line
    ensures { Says line.now result (list_form (parts_from from line.now)) }
{
    let Some(order) = next_part(line, from) else {
        return Line::Unknown;
    };
    if next_part(line, order.end).is_some() {
        return Line::Unknown;
    }
    Line::List {
        order: token_of(&line[order.start..order.end]),
    }
}

fn job_line(line: &[u8], from: usize) -> Line
    ensures { Says line.now result (job_form (parts_from from line.now)) }
{
    let Some(size) = next_part(line, from) else {
        return Line::Unknown;
    };
    let Some(algebra) = next_part(line, size.end) else {
        return Line::Unknown;
    };
    if next_part(line, algebra.end).is_some() {
        return Line::Unknown;
    }
    Line::Job {
        size: token_of(&line[size.start..size.end]),
        algebra: token_of(&line[algebra.start..algebra.end]),
    }
}

fn row_line(line: &[u8], from: usize) -> Line
    ensures { Says line.now result (row_form (parts_from from line.now)) }
{
    if next_part(line, from).is_none() {
        return Line::Unknown;
    }
    Line::Row { from }
}

// A line of one part.
fn lone_line(whole: Line, line: &[u8], from: usize) -> Line
    ensures { Says line.now result (alone (form_in line.now whole) (parts_from from line.now)) }
{
    if next_part(line, from).is_none() {
        return whole;
    }
    Line::Unknown
}

#[tactic(auto, unfolding(crate::specs::Forms::form_of, text::specs::Pieces::parts))]
pub fn read_line(line: &[u8]) -> Line
    ensures { Says line.now result (form_of (parts line.now)) }
{
    let Some(Part { start, end }) = next_part(line, 0) else {
        return Line::Skipped;
    };
    match head_of(&line[start..end]) {
        Head::Comment => Line::Skipped,
        Head::List => list_line(line, end),
        Head::Job => job_line(line, end),
        Head::Row => row_line(line, end),
        Head::EmptyRow => lone_line(Line::EmptyRow, line, end),
        Head::Close => lone_line(Line::Close, line, end),
        Head::Unknown => Line::Unknown,
    }
}

// The last word of a row, whose part ends with the bracket.
fn closing_word(part: &[u8]) -> Token
    requires { 0 < length part.now }
    ensures { result ≡ closing part.now }
{
    let last = part.len() - 1;
    if part[last] != b')' {
        return Token::Other;
    }
    token_of(&part[..last])
}

// The word of a row at a part that is not empty.
pub fn word_at(line: &[u8], part: Part) -> Word
    requires { (part.start < part.end) × (part.end ≤ length line.now) }
    ensures { Worded part.start part.end line.now result.token result.next }
{
    let word = &line[part.start..part.end];
    let next = next_part(line, part.end);
    let token = match next {
        Some(_) => token_of(word),
        None => closing_word(word),
    };
    Word { token, next }
}
