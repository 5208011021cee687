// The words at the edges, put into the first row of b and the first column of a.
ghost use Rattle.turns.specs.Turn.{step_of};
ghost use Rattle.moves.specs.Edges.{LeftEntered, Entered};
ghost use Rattle.moves.specs.Lent.{WithEdges, LeftEdged};

use memory::copy;
use turns::{Columns, Front};

// The left edge's words into the first column of a: rows from ≤ i < to.
fn enter_left(n: usize, from: usize, to: usize, left: &[u16], planes: &mut [u16])
    requires { LeftEdged n from to left.now planes.old }
    ensures { LeftEntered n from to left.now planes.old planes.new }
{
    for i in from..to {
        planes[n * n + i * n] = left[i];
    }
}

// What comes in at the edges, into the cells there that make a step. Row 0 and column 0 have the same span.
pub fn enter(front: Front, edges: &[u16], planes: &mut [u16])
    requires { WithEdges front.n planes.old edges.now }
    ensures { Entered front.n front.count (step_of front.n front.head) edges.now planes.old planes.new }
{
    let n = front.n;
    let Columns { from, to } = Columns::moved(n, front.count, front.head);
    enter_left(n, from, to, &edges[n..2 * n], planes);
    let b = 2 * (n * n);
    copy(&edges[from..to], &mut planes[b + from..b + to]);
}
