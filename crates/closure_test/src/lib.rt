// Whether a table is the elimination of another, for the calls that are lent both. The elimination lies in an array of this call,
// the smaller of two that holds it, since an array is cleared when it is made.

#![tactic(auto)]

ghost use Rattle.std.specs.Prelude.{◌≡◌, ◌≤◌, ◌*◌};
ghost use Rattle.memory.specs.Lists.{same};
ghost use Rattle.closure.specs.Elimination.{eliminated};
ghost use Rattle.closure_test.specs.inner.Tables.{Tables};

use elimination::eliminate;
use memory::same_words;
use semiring::Algebra;

// With room for CELLS words.
fn in_room<const CELLS: usize>(a: Algebra, n: usize, links: &[u16], closed: &[u16]) -> bool
    requires { Tables n 128 links.now closed.now × (n * n ≤ CELLS) × (CELLS ≤ 16384) }
    ensures { result ≡ same closed.now (eliminated a n links.now) }
{
    let mut cells = [0u16; CELLS];
    let room = &mut cells[..n * n];
    eliminate(a, n, links, room);
    same_words(closed, room)
}

// Whether every word of `closed` is that of the links' elimination.
pub fn is_closed(a: Algebra, n: usize, links: &[u16], closed: &[u16]) -> bool
    requires { Tables n 128 links.now closed.now }
    ensures { result ≡ same closed.now (eliminated a n links.now) }
{
    if n <= 16 {
        in_room::<256>(a, n, links, closed)
    } else {
        in_room::<16384>(a, n, links, closed)
    }
}
