// The successors followed from a point to the target.
ghost use Rattle.levels.specs.inner.Follow.{Ahead, Written};

use crate::backwards::Mark;

// The points from `from` to `to` into the front of `list`, and their count.
pub fn follow(from: usize, to: usize, marks: &[Mark], list: &mut [u16]) -> usize
    requires { Ahead to marks.now from list.old }
    ensures { Written to marks.now from list.old list.new result }
{
    let mut v = from;
    let mut i = 0;
    // A `for` over the places of `list` is no plainer: it has an end after its last place, which no walk reaches.
    while v != to {
        list[i] = v as u16;
        v = marks[v].next;
        i += 1;
    }
    list[i] = v as u16;
    i + 1
}
