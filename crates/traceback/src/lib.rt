// A way traced back from a closed table.

#![tactic(auto)]

ghost use Rattle.ways.specs.Given.{WayGiven};
ghost use Rattle.refusals.specs.Answer.{answer_number};
ghost use Rattle.traceback.specs.WayAnswer.{way_length};

use checks::check;
use closure_test::is_closed;
use levels::find;
use refusals::Reason;
use semiring::none;

// A way from one point to another with no point twice, whose word is the closed entry, into the front of `list`, and its length. A refusal
// leaves the list as it was.
pub fn way(
    algebra: u32,
    size: usize,
    links: &[u16],
    closed: &[u16],
    from: usize,
    to: usize,
    list: &mut [u16],
) -> Result<usize, Reason>
    ensures { WayGiven (answer_number result) (way_length result) algebra size links.now closed.now from to
        list.old list.new }
{
    let a = check(algebra, size, links, closed)?;
    if list.len() != size {
        return Err(Reason::WayUnfit);
    }
    if size <= from {
        return Err(Reason::WayUnfit);
    }
    if size <= to {
        return Err(Reason::WayUnfit);
    }
    if !is_closed(a, size, links, closed) {
        return Err(Reason::WayUnfit);
    }
    if closed[from * size + to] == none(a) {
        return Err(Reason::NoWay);
    }
    let count = find(a, size, links, closed, from, to, list);
    Ok(count)
}
