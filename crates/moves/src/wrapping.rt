// The array's own words at its edges: the last row of b, the last column of a.
ghost use Rattle.std.specs.Prelude.{◌*◌};
ghost use Rattle.moves.specs.Edges.{LeftWrapped, Wrapped};
ghost use Rattle.moves.specs.Lent.{WithEdges};

use memory::copy;

// The last column of a, into the left edge.
fn wrap_left(n: usize, planes: &[u16], edges: &mut [u16])
    requires { WithEdges n planes.now edges.old }
    ensures { LeftWrapped n planes.now edges.old (2 * n) edges.new }
{
    for i in 0..n {
        edges[n + i] = planes[n * n + (i * n + n - 1)];
    }
}

// Both edges.
pub fn wrap(n: usize, planes: &[u16], edges: &mut [u16])
    requires { WithEdges n planes.now edges.old }
    ensures { Wrapped n planes.now edges.old edges.new }
{
    let end = 3 * (n * n);
    copy(&planes[end - n..end], edges);
    wrap_left(n, planes, edges);
}
