// The form of the line that stands at the beginning of a text.
ghost use Rattle.std.specs.Prelude.{unwrap_or};
ghost use Rattle.text.specs.inner.Scan.{parts_from};
ghost use Rattle.road_form.specs.declared.forms.Line.TheVariants.{Unknown};
ghost use Rattle.road_form.specs.Forms.{problem_form};
ghost use Rattle.road_form.specs.inner.Says.{Says, LineRead, LineSaid, EndsAt, UnknownSaid, ArcSaid, ArcBegins, ArcTold, Plain};

use crate::numbers::next_number;
use text::{next_part, until};

// `a FROM TO LENGTH`
#[derive(Clone, Copy)]
pub struct Arc {
    pub from: u64,
    pub to: u64,
    pub length: u64,
}

#[derive(Clone, Copy)]
pub enum Line {
    // a line that begins with `c`
    Comment,
    // `p sp POINTS ARCS`
    Problem { points: u64, arcs: u64 },
    Arc(Arc),
    Unknown,
}

// What a line says, and where it ends: at its LF, or with the text.
#[derive(Clone, Copy)]
pub struct Said {
    pub line: Line,
    pub end: usize,
}

fn ends_at(text: &[u8], at: usize) -> bool
    ensures { EndsAt text.now at result }
{
    text.len() <= at || text[at] == b'\n'
}

fn begins_arc(text: &[u8]) -> bool
    ensures { ArcTold text.now result }
{
    matches!(text, [b'a', b' ', ..])
}

// An arc's line ends where its last numeral does: the LF is not looked for before, and each digit is read once.
fn arc_line(text: &[u8]) -> Option<Said>
    requires { ArcBegins text.now }
    ensures { ArcSaid text.now result }
{
    let from = next_number(text, 1)?;
    let to = next_number(text, from.end)?;
    let length = next_number(text, to.end)?;
    if !ends_at(text, length.end) {
        return None;
    }
    let arc = Arc {
        from: from.value,
        to: to.value,
        length: length.value,
    };
    Some(Said {
        line: Line::Arc(arc),
        end: length.end,
    })
}

// What stands after `p`, where it has the form of a problem.
fn problem_line(line: &[u8]) -> Option<Line>
    requires { Plain line.now }
    ensures { Says problem_form (parts_from 1 line.now) (unwrap_or result Unknown) }
{
    let kind = next_part(line, 1)?;
    if &line[kind.start..kind.end] != b"sp".as_slice() {
        return None;
    }
    let points = next_number(line, kind.end)?;
    let arcs = next_number(line, points.end)?;
    if next_part(line, arcs.end).is_some() {
        return None;
    }
    Some(Line::Problem {
        points: points.value,
        arcs: arcs.value,
    })
}

// A line that is no arc's.
fn plain_line(line: &[u8]) -> Line
    requires { Plain line.now }
    ensures { LineRead line.now result }
{
    if line.starts_with(b"c") {
        return Line::Comment;
    }
    if !line.starts_with(b"p ") || line.ends_with(b" ") {
        return Line::Unknown;
    }
    problem_line(line).unwrap_or(Line::Unknown)
}

fn unknown(text: &[u8]) -> Said
    ensures { UnknownSaid text.now result }
{
    Said {
        line: Line::Unknown,
        end: until(text, 0, b'\n'),
    }
}

pub fn read_line(text: &[u8]) -> Said
    ensures { LineSaid text.now result }
{
    if begins_arc(text) {
        return match arc_line(text) {
            Some(said) => said,
            None => unknown(text),
        };
    }
    let end = until(text, 0, b'\n');
    Said {
        line: plain_line(&text[..end]),
        end,
    }
}
