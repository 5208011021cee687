// All cells on one tick: a and b move on, the edges' words come in, then c and what a and b take from it.
ghost use Rattle.std.specs.Prelude.{◌≡◌, ℕ, ◌+◌, ◌-◌, ◌*◌, List, length};
ghost use Rattle.systolic.specs.Cell.{Planes};
ghost use Rattle.job_list.specs.Jobs.{jobs_of};
ghost use Rattle.turns.specs.Turn.{step_of};
ghost use Rattle.stage.specs.Found.{AlgebraIn};
ghost use Rattle.ticks.specs.Swept.{Sweeping, Held, Edged, Made};

use cells::settle;
use moves::{enter, slide};
use semiring::Algebra;
use turns::{Front, Turn};

// `head` is the turn of cell (0, 0), `here` the algebra of the job of its pass and `behind` that of the pass before.
pub fn sweep(
    here: Algebra,
    behind: Algebra,
    n: usize,
    count: usize,
    head: Turn,
    edges: &[u16],
    planes: &mut [u16],
)
    requires { Sweeping n count head edges.now planes.old }
    ensures { (algebras sizes weights : List ℕ) (t : ℕ) (r : Planes) → length sizes ≡ count → step_of n head ≡ t + 4 * n
        → AlgebraIn algebras sizes head.pass here → AlgebraIn algebras sizes (head.pass - 1) behind
        → Held (jobs_of algebras n sizes weights) r planes.old → Edged (jobs_of algebras n sizes weights) t r edges.now
        → Made (jobs_of algebras n sizes weights) t r planes.new }
{
    let front = Front { n, count, head };
    slide(front, planes);
    enter(front, edges, planes);
    settle(here, behind, front, planes);
}
