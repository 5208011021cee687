// The buffers that a text is read into.
ghost use Rattle.std.specs.Prelude.{length};
ghost use Rattle.job_steps.specs.inner.States.{AllCleared};

use memory::clear;

pub fn clear_all(algebras: &mut [u16], sizes: &mut [u16], weights: &mut [u16])
    ensures { AllCleared (length algebras.old) (length sizes.old) (length weights.old)
        algebras.new sizes.new weights.new }
{
    clear(algebras);
    clear(sizes);
    clear(weights);
}
