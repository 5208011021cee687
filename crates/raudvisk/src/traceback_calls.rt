// A way traced back, for other languages.
ghost use Rattle.ways.specs.Given.{WayGivenHost};

use traceback::way;

// It returns 0 and writes the way's length, or returns the refusal's number, and then leaves list and length as they were.
pub fn traceback_way(
    algebra: u32,
    size: usize,
    links: &[u16],
    closed: &[u16],
    from: usize,
    to: usize,
    list: &mut [u16],
    length: &mut usize,
) -> u32
    ensures { WayGivenHost result algebra size links.now closed.now from to
        list.old list.new length.old length.new }
{
    match way(algebra, size, links, closed, from, to, list) {
        Ok(count) => {
            *length = count;
            0
        }
        Err(reason) => u32::from(reason),
    }
}
