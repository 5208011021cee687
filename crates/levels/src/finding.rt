// A way between two points whose word is their entry in the closed table.
ghost use Rattle.ways.specs.inner.Sought.{Sought, Found};

use crate::backwards::{Mark, Search};
use crate::successors::follow;
use semiring::Algebra;

// The points of such a way into the front of `list`, and their count.
pub fn find(
    algebra: Algebra,
    size: usize,
    links: &[u16],
    closed: &[u16],
    from: usize,
    to: usize,
    list: &mut [u16],
) -> usize
    requires { Sought algebra size links.now closed.now from to list.old }
    ensures { Found algebra size links.now closed.now from to list.old list.new result }
{
    let mut marks = [Mark { level: 0, next: 0 }; 128];
    marks[to].level = 1;
    let search = Search {
        algebra,
        size,
        links,
        closed,
        target: to,
    };
    search.reach(from, &mut marks);
    follow(from, to, &marks, list)
}
