// The algebras of a list's jobs.
ghost use Rattle.std.specs.Prelude.{◌≡◌, ◌<◌, length};
ghost use Rattle.job_list.specs.Jobs.{algebra_of};
ghost use Rattle.job_list.specs.Fits.{any_unknown};
ghost use Rattle.job_list.specs.inner.Parts.{any_other};

use semiring::Algebra;

// Whether a number names no algebra. Here and in the two tests like it the bits of all are taken together, with no exit at the first hit, so
// that the walk runs on vectors.
pub fn any_unknown(algebras: &[u16]) -> bool
    ensures { result ≡ any_unknown algebras.now }
{
    let mut found = false;
    for number in algebras {
        found |= 2 < *number;
    }
    found
}

// The algebra of job q. A number that names none is taken for 2.
pub fn algebra_of(algebras: &[u16], q: usize) -> Algebra
    requires { q < length algebras.now }
    ensures { result ≡ algebra_of algebras.now q }
{
    Algebra::try_from(u32::from(algebras[q])).unwrap_or(Algebra::Steepest)
}

// Whether a job has another algebra than that of this number.
pub fn any_other(number: u16, algebras: &[u16]) -> bool
    ensures { result ≡ any_other number algebras.now }
{
    let mut found = false;
    for other in algebras {
        found |= *other != number;
    }
    found
}
