// What a path algebra is: three words, a sum and a product, all of them those of one of the definitions' algebras, for each of which the
// claim `Laws` holds.
ghost use Rattle.std.specs.Prelude.{ℕ, ◌≡◌};
ghost use Rattle.semiring.specs.Algebra.{none_word_of, own_of, sum_of, product_of, top_of};
ghost use Rattle.semiring.specs.declared.Algebra.{Algebra};

pub trait PathAlgebra {
    ghost algebra: { Algebra };

    ghost NONE: { ℕ };

    ghost OWN: { ℕ };

    ghost TOP: { ℕ };

    const NONE: u16;

    const OWN: u16;

    // The largest word.
    const TOP: u16;

    fn sum(x: u16, y: u16) -> u16
        ensures { result ≡ sum_of algebra x y };

    fn product(x: u16, y: u16) -> u16
        ensures { result ≡ product_of algebra x y };

    ghost words: { (NONE ≡ none_word_of algebra) × (OWN ≡ own_of algebra) × (TOP ≡ top_of algebra) };
}
