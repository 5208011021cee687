// A list of jobs as it is lent, and its words by their algebras.
ghost use Rattle.std.specs.Prelude.{◌≡◌};
ghost use Rattle.job_list.specs.Fits.{job_above};
ghost use Rattle.job_list.specs.inner.Parts.{Parts};

use crate::algebras::{algebra_of, any_other};
use semiring::has_word_above;

// The number of each job's algebra, each job's size, and the words of all, one job's after the other's.
#[derive(Clone, Copy)]
pub struct Jobs<'a> {
    pub algebras: &'a [u16],
    pub sizes: &'a [u16],
    pub weights: &'a [u16],
}

impl<'a> Jobs<'a> {
    // Whether a job has a word that is none of its algebra's, job by job. Only the words of jobs in reach are looked at.
    fn above_by_job(&self) -> bool
        requires { Parts self.now.algebras.now self.now.sizes.now self.now.weights.now }
        ensures { result ≡ job_above self.now.algebras.now self.now.sizes.now self.now.weights.now }
    {
        let mut start = 0;
        for q in 0..self.sizes.len() {
            let n = usize::from(self.sizes[q]);
            let end = start + n * n;
            if has_word_above(algebra_of(self.algebras, q), &self.weights[start..end]) {
                return true;
            }
            start = end;
        }
        false
    }

    // The same. The words of a list of one algebra are looked at as one, which in runs of few ticks shows.
    #[inline(always)]
    pub fn any_above(&self) -> bool
        requires { Parts self.now.algebras.now self.now.sizes.now self.now.weights.now }
        ensures { result ≡ job_above self.now.algebras.now self.now.sizes.now self.now.weights.now }
    {
        if any_other(self.algebras[0], self.algebras) {
            return self.above_by_job();
        }
        has_word_above(algebra_of(self.algebras, 0), self.weights)
    }
}
