// What leaves the array on one tick, written to the results.

#![tactic(auto)]

ghost use Rattle.std.specs.Prelude.{◌≡◌, ℕ, ◌+◌, ◌-◌, ◌*◌, List, length};
ghost use Rattle.systolic.specs.Tick.{emitted_rows};
ghost use Rattle.job_list.specs.Jobs.{jobs_of};
ghost use Rattle.turns.specs.Turn.{step_of};
ghost use Rattle.turns.specs.Layout.{planes_in};
ghost use Rattle.stage.specs.Found.{Found};
ghost use Rattle.emission.specs.Sent.{Sending, Emitting, sent, sent_rows};

use stage::Job;
use turns::{Band, Turn};

// A word as entry (i, k) of a job of a size, into the job's part of the results, if the job has that entry.
fn store(part: &mut [u16], size: usize, i: usize, k: usize, word: u16)
    requires { length part.old ≡ size * size }
    ensures { part.new ≡ sent size i k word part.old }
{
    if size <= i {
        return;
    }
    if size <= k {
        return;
    }
    part[i * size + k] = word;
}

// The words of a band of the last column, into the job's part: row i sends entry (i, last - i).
fn send(n: usize, size: usize, band: Band, planes: &[u16], part: &mut [u16])
    requires { Sending n size band planes.now part.old }
    ensures { part.new
        ≡ sent_rows n size band.last planes.now band.from (band.to - band.from) part.old }
{
    for i in band.from..band.to {
        store(
            part,
            size,
            i,
            band.last - i,
            planes[n * n + (i * n + (n - 1))],
        );
    }
}

// All rows, where cell (0, 0) has turn `head` and the cells two passes behind it are on the job.
pub fn emit(n: usize, head: Turn, job: Job, planes: &[u16], results: &mut [u16])
    requires { Emitting n head job planes.now results.old }
    ensures { (algebras sizes weights : List ℕ) (t : ℕ) → step_of n head ≡ t + 4 * n → Found algebras sizes (head.pass - 2) job
        → results.new ≡ emitted_rows (jobs_of algebras n sizes weights) t (planes_in n planes.now) n results.old }
{
    let band = Band::of(n, head.to_last(n), 3);
    send(n, job.size, band, planes, &mut results[job.start..job.end]);
}
