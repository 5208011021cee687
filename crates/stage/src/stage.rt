// What stands in the array on a tick.
ghost use Rattle.std.specs.Prelude.{◌≤◌};
ghost use Rattle.stage.specs.Found.{Findable};
ghost use Rattle.stage.specs.Staged.{Staged};

use crate::jobs::{Job, job_of};
use job_list::Jobs;
use turns::Turn;

// The turn of cell (0, 0), the job that it is on, and those of the cells a pass and two passes behind it. No cell is further behind, so there
// are no others.
#[derive(Clone, Copy)]
pub struct Stage {
    pub tick: usize,
    pub head: Turn,
    pub front: Job,
    pub middle: Job,
    pub back: Job,
}

pub fn stage_at(n: usize, t: usize, jobs: &Jobs, starts: &[usize]) -> Stage
    requires { (1 ≤ n) × (n ≤ 32) × (t ≤ 2110)
        × Findable jobs.now.algebras.now jobs.now.sizes.now starts.now }
    ensures { Staged n t jobs.now.algebras.now jobs.now.sizes.now result }
{
    let head = Turn::at(n, t + 4 * n);
    let pass = head.pass;
    Stage {
        tick: t,
        head,
        front: job_of(pass, jobs, starts),
        middle: job_of(pass - 1, jobs, starts),
        back: job_of(pass - 2, jobs, starts),
    }
}
