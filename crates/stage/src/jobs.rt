// Where the jobs lie in the list's weights and in the results.
ghost use Rattle.std.specs.Prelude.{◌≡◌, ◌≤◌, length};
ghost use Rattle.job_list.specs.Fits.{Small};
ghost use Rattle.stage.specs.Found.{Listed, Findable, Found};

use job_list::{Jobs, algebra_of};
use semiring::Algebra;
use turns::live;

// A job's algebra and size, and its part, which begins where the earlier jobs' end.
#[derive(Clone, Copy)]
pub struct Job {
    pub algebra: Algebra,
    pub size: usize,
    // No `Range`: it is not Copy, and a Job and the Stage that holds it are.
    pub start: usize,
    pub end: usize,
}

// Where each job's part begins.
pub fn mark(sizes: &[u16], starts: &mut [usize])
    requires { (length sizes.now ≤ length starts.old) × Small sizes.now }
    ensures { Listed sizes.now starts.new }
{
    let mut at = 0;
    for q in 0..sizes.len() {
        starts[q] = at;
        let size = usize::from(sizes[q]);
        at += size * size;
    }
}

// The job of a pass; where the pass is of none, a job of no points.
pub fn job_of(pass: usize, jobs: &Jobs, starts: &[usize]) -> Job
    requires { Findable jobs.now.algebras.now jobs.now.sizes.now starts.now }
    ensures { Found jobs.now.algebras.now jobs.now.sizes.now pass result }
{
    if live(jobs.sizes.len(), pass) {
        let q = pass / 4 - 1;
        let size = usize::from(jobs.sizes[q]);
        let start = starts[q];
        return Job {
            algebra: algebra_of(jobs.algebras, q),
            size,
            start,
            end: start + size * size,
        };
    }
    Job {
        algebra: Algebra::Reach,
        size: 0,
        start: 0,
        end: 0,
    }
}
