// What comes in at the edges: a job's entries in its first pass, the array's own words after that.

#![tactic(auto)]

ghost use Rattle.std.specs.Prelude.{◌≡◌, ◌*◌, length};
ghost use Rattle.feeding.specs.Filled.{Padded, Feeding, Fed, Filling, Filled};

use moves::wrap;
use semiring::{Algebra, none, own};
use stage::Job;
use turns::{Band, Turn};

// Entry (i, j) of a job of a size, padded.
fn fed(algebra: Algebra, size: usize, weights: &[u16], i: usize, j: usize) -> u16
    requires { length weights.now ≡ size * size }
    ensures { Padded algebra size weights.now i j result }
{
    if i == j {
        return own(algebra);
    }
    if size <= i {
        return none(algebra);
    }
    if size <= j {
        return none(algebra);
    }
    let at = i * size + j;
    weights[at]
}

// A job's entries for the cells of a band of both edges.
fn feed(algebra: Algebra, n: usize, size: usize, weights: &[u16], band: Band, edges: &mut [u16])
    requires { Feeding n size band weights.now edges.old }
    ensures { Fed algebra n size band weights.now edges.old edges.new }
{
    for x in band.from..band.to {
        let k = band.last - x;
        edges[x] = fed(algebra, size, weights, k, x);
        edges[n + x] = fed(algebra, size, weights, x, k);
    }
}

// Both edges, where cell (0, 0) has turn `head` and is on the job.
pub fn fill(n: usize, head: Turn, job: Job, weights: &[u16], planes: &[u16], edges: &mut [u16])
    requires { Filling n head job weights.now planes.now edges.old }
    ensures { Filled n head job weights.now planes.now edges.new }
{
    wrap(n, planes, edges);
    let band = Band::of(n, head, 0);
    feed(
        job.algebra,
        n,
        job.size,
        &weights[job.start..job.end],
        band,
        edges,
    );
}
