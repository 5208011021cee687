// What one line leads to.
ghost use Rattle.road_form.specs.declared.forms.Line.TheVariants.{Problem, Arc as arcLine};
ghost use Rattle.road_text.specs.inner.Kept.{Ready, Stepped};

use crate::progress::Progress;
use refusals::Reason;
use road_form::{Arc, Line};
use road_table::{begin, join};

fn problem_step(s: Progress, points: u64, arcs: u64, table: &mut [u16]) -> Result<Progress, Reason>
    requires { Ready s table.old }
    ensures { Stepped s (Problem points arcs) table.old result table.new }
{
    if s.points != 0 {
        return Err(Reason::RoadForm);
    }
    if points < 1 {
        return Err(Reason::RoadRange);
    }
    if 128 < points {
        return Err(Reason::RoadRange);
    }
    begin(table, points as usize);
    Ok(Progress {
        points: points as usize,
        arcs,
        count: 0,
    })
}

fn arc_step(s: Progress, arc: Arc, table: &mut [u16]) -> Result<Progress, Reason>
    requires { Ready s table.old }
    ensures { Stepped s (arcLine arc) table.old result table.new }
{
    if s.points < 1 {
        return Err(Reason::RoadForm);
    }
    let most = s.points as u64;
    if arc.from < 1 {
        return Err(Reason::RoadRange);
    }
    if most < arc.from {
        return Err(Reason::RoadRange);
    }
    if arc.to < 1 {
        return Err(Reason::RoadRange);
    }
    if most < arc.to {
        return Err(Reason::RoadRange);
    }
    join(table, s.points, arc);
    Ok(Progress {
        points: s.points,
        arcs: s.arcs,
        count: s.count + 1,
    })
}

// What a line leads to, with the table after it where it is accepted.
pub fn advance(s: Progress, line: Line, table: &mut [u16]) -> Result<Progress, Reason>
    requires { Ready s table.old }
    ensures { Stepped s line table.old result table.new }
{
    match line {
        Line::Comment => Ok(s),
        Line::Problem { points, arcs } => problem_step(s, points, arcs, table),
        Line::Arc(arc) => arc_step(s, arc, table),
        Line::Unknown => Err(Reason::RoadForm),
    }
}
