// A list of jobs: their algebras and sizes, and where each one's words begin.

#![tactic(auto)]

ghost use Rattle.std.specs.Prelude.{◌≡◌, ◌≤◌, length};
ghost use Rattle.job_list.specs.Jobs.{offset};
ghost use Rattle.job_list.specs.Fits.{any_outside, Small};

mod algebras;
mod jobs;

pub use algebras::{algebra_of, any_unknown};
pub use jobs::Jobs;

// Whether a job's size is outside 1 to the order.
pub fn any_outside(order: usize, sizes: &[u16]) -> bool
    ensures { result ≡ any_outside order sizes.now }
{
    let mut found = false;
    for size in sizes {
        found |= (*size < 1) | (order < usize::from(*size));
    }
    found
}

// The words of the first q jobs: the sum of their sizes' squares.
pub fn words_before(sizes: &[u16], q: usize) -> usize
    requires { (q ≤ length sizes.now) × Small sizes.now }
    ensures exact { result ≡ offset sizes.now q }
    ensures most { result ≤ 16384 }
{
    sizes[..q]
        .iter()
        .map(|n| usize::from(*n) * usize::from(*n))
        .sum()
}
