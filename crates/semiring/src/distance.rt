// Distance: the length of the shortest way. A product is held at 65534, which means 65534 or more; none comes only from none.
ghost use Rattle.std.specs.Prelude.{◌+◌, min, ◌≡◌, refl};
ghost use Rattle.semiring.specs.declared.Algebra.{Algebra};

use crate::PathAlgebra;

// The addition, held at 65535.
fn held_sum(x: u16, y: u16) -> u16
    ensures { result ≡ min (x + y) 65535 }
{
    if x < 65535 - y { x + y } else { 65535 }
}

#[derive(Clone, Copy)]
pub struct Distance;

impl PathAlgebra for Distance {
    ghost algebra = { Algebra.Distance };

    ghost NONE = { 65535 };

    ghost OWN = { 0 };

    ghost TOP = { 65535 };

    const NONE: u16 = 65535;

    const OWN: u16 = 0;

    const TOP: u16 = 65535;

    fn sum(x: u16, y: u16) -> u16 {
        if x < y { x } else { y }
    }

    // One more than x is added to y and held at 65535; without that one the sum is held at 65534. As x none gets no more and stays
    // none; as y it is above every held sum. With two tests on none in place of it, loops over rows take twice the time.
    fn product(x: u16, y: u16) -> u16 {
        let more = held_sum(x, 1);
        let held = held_sum(more, y) - (more - x);
        if held < y { y } else { held }
    }

    ghost words = { (refl, refl, refl) };
}
