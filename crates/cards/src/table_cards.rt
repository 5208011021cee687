// Cards of the elimination.
ghost use Rattle.std.specs.Prelude.{◌≤◌};

use memory::same_words;
use paths::eliminate;
use raudvisk::paths_eliminate;
use text::equal;

// A table of N words that is closed, over the words of `res`, into another.
pub fn closes_over<const N: usize>(
    algebra: u32,
    size: usize,
    links: [u16; N],
    mut res: [u16; N],
    closed: [u16; N],
) -> bool
    requires { N ≤ 9 }
{
    eliminate(algebra, size, &links, &mut res).is_ok() && same_words(&res, &closed)
}

fn closes(algebra: u32, links: [u16; 9], closed: [u16; 9]) -> bool {
    closes_over(algebra, 3, links, [9; 9], closed)
}

// The same by the call on bytes, for a host in C. Not one generic with the other: call and answer differ, and closures are longer.
pub fn closes_bytes<const N: usize>(
    algebra: u32,
    size: usize,
    links: [u8; N],
    closed: [u8; N],
) -> bool
    requires { N ≤ 18 }
{
    let mut result = [9; N];
    paths_eliminate(algebra, size, &links, &mut result) == 0 && equal(&result, &closed)
}

pub fn one_point() -> bool {
    closes_over(1, 1, [7], [9], [0])
}

pub fn one_point_reach() -> bool {
    closes_over(0, 1, [0], [9], [1])
}

pub fn distance() -> bool {
    let links = [0, 4, 9, 65535, 0, 3, 1, 65535, 0];
    closes(1, links, [0, 4, 7, 4, 0, 3, 1, 5, 0])
}

// B3 in bytes, two a word, low byte first.
pub fn distance_bytes() -> bool {
    let links = [0, 0, 4, 0, 9, 0, 255, 255, 0, 0, 3, 0, 1, 0, 255, 255, 0, 0];
    let closed = [0, 0, 4, 0, 7, 0, 4, 0, 0, 0, 3, 0, 1, 0, 5, 0, 0, 0];
    closes_bytes(1, 3, links, closed)
}

pub fn steepest() -> bool {
    let links = [0, 4, 9, 65535, 0, 3, 1, 65535, 0];
    closes(2, links, [0, 4, 4, 3, 0, 3, 1, 4, 0])
}

pub fn reach() -> bool {
    closes(0, [0, 1, 1, 0, 0, 1, 1, 0, 0], [1; 9])
}

pub fn longest() -> bool {
    let links = [0, 40000, 65535, 65535, 0, 25534, 65535, 65535, 0];
    closes(
        1,
        links,
        [0, 40000, 65534, 65535, 0, 25534, 65535, 65535, 0],
    )
}

// A way of 65535 is held at 65534; where there is no way the word is none.
pub fn far() -> bool {
    let links = [0, 40000, 65535, 65535, 0, 25535, 65535, 65535, 0];
    closes(
        1,
        links,
        [0, 40000, 65534, 65535, 0, 25535, 65535, 65535, 0],
    )
}

// 65534 is an ordinary word of steepest. The way over 1 has it as its steepest link; from 0 to 2 there is no link.
pub fn steepest_65534() -> bool {
    let links = [0, 40000, 65535, 65535, 0, 65534, 65535, 65535, 0];
    closes(
        2,
        links,
        [0, 40000, 65534, 65535, 0, 65534, 65535, 65535, 0],
    )
}

// The way from 0 to 1 goes through the last point.
pub fn last_pass() -> bool {
    let links = [0, 9, 1, 65535, 0, 65535, 65535, 2, 0];
    closes(1, links, [0, 3, 1, 65535, 0, 65535, 65535, 2, 0])
}
