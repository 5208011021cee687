// The elimination's checks, which every call on words that is lent a table of links makes first.

#![tactic(auto)]

ghost use Rattle.checks.specs.inner.Checks.{Checks};

use refusals::Reason;
use semiring::{Algebra, has_word_above};

// Tests 1 to 5 of document 01, with 4 for the second table: the result, or whatever the call has in its place. The algebra, or the first
// that applies.
pub fn check(algebra: u32, size: usize, links: &[u16], table: &[u16]) -> Result<Algebra, Reason>
    ensures { Checks result algebra size links.now table.now }
{
    let a = Algebra::try_from(algebra)?;
    if size < 1 || 128 < size {
        return Err(Reason::SizeOutside);
    }
    if links.len() != size * size {
        return Err(Reason::WeightsLength);
    }
    if table.len() != size * size {
        return Err(Reason::ResultLength);
    }
    if has_word_above(a, links) {
        return Err(Reason::WordAbove);
    }
    Ok(a)
}
