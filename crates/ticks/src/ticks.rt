// Ticks of the whole array, in place: what comes in at the edges, the cells, what leaves.
ghost use Rattle.std.specs.Prelude.{◌≡◌, ◌+◌, ◌-◌, ◌≤◌};
ghost use Rattle.systolic.specs.Tick.{ticked, ticks as ticksOf};
ghost use Rattle.job_list.specs.Jobs.{jobs_of};
ghost use Rattle.stage.specs.Staged.{Staged};
ghost use Rattle.ticks.specs.Ready.{array_of, Ready};

use crate::sweep::sweep;
use emission::emit;
use feeding::fill;
use job_list::Jobs;
use stage::{Stage, mark, stage_at};

// The tick of a stage. `edges` has room for the words that come in at the top and at the left.
fn tick(
    n: usize,
    stage: Stage,
    jobs: &Jobs,
    edges: &mut [u16],
    planes: &mut [u16],
    results: &mut [u16],
)
    requires ready { Ready (jobs_of jobs.now.algebras.now n jobs.now.sizes.now jobs.now.weights.now) (stage.tick + 1) edges.old planes.old results.old }
    requires staged { Staged n stage.tick jobs.now.algebras.now jobs.now.sizes.now stage }
    ensures { array_of n planes.new results.new
        ≡ ticked (jobs_of jobs.now.algebras.now n jobs.now.sizes.now jobs.now.weights.now) stage.tick
        (array_of n planes.old results.old) }
{
    let head = stage.head;
    let here = stage.front.algebra;
    let behind = stage.middle.algebra;
    fill(n, head, stage.front, jobs.weights, planes, edges);
    sweep(here, behind, n, jobs.sizes.len(), head, edges, planes);
    emit(n, head, stage.back, planes, results);
}

// The ticks from ≤ t < to. No `Range`, which is not Copy.
#[derive(Clone, Copy)]
pub struct Ticks {
    pub from: usize,
    pub to: usize,
}

// Those ticks, one after another. The planes may hold any words.
pub fn advance(
    n: usize,
    span: Ticks,
    jobs: &Jobs,
    edges: &mut [u16],
    planes: &mut [u16],
    results: &mut [u16],
)
    requires ready { Ready (jobs_of jobs.now.algebras.now n jobs.now.sizes.now jobs.now.weights.now) span.to edges.old planes.old results.old }
    requires from_le_to { span.from ≤ span.to }
    ensures { array_of n planes.new results.new
        ≡ ticksOf (jobs_of jobs.now.algebras.now n jobs.now.sizes.now jobs.now.weights.now) span.from (span.to - span.from)
        (array_of n planes.old results.old) }
{
    let mut starts = [0usize; 16];
    mark(jobs.sizes, &mut starts);
    for t in span.from..span.to {
        let stage = stage_at(n, t, jobs, &starts);
        tick(n, stage, jobs, edges, planes, results);
    }
}
