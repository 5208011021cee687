// Cards of request K2: a hall of four points with links 0→1 2, 0→2 1, 1→3 3, 2→3 4, in distance.
ghost use Rattle.std.specs.Prelude.{◌≤◌};

use memory::same_words;
use traceback::way;

const LINKS: [u16; 16] = [
    9, 2, 1, 65535, 65535, 9, 65535, 3, 65535, 65535, 9, 4, 65535, 65535, 65535, 9,
];

const CLOSED: [u16; 16] = [
    0, 2, 1, 5, 65535, 0, 65535, 3, 65535, 65535, 0, 4, 65535, 65535, 65535, 0,
];

// A call that answers a way's length, or a refusal's number, and leaves one of two lists in a memory of nines.
pub fn gives<const N: usize>(
    from: usize,
    to: usize,
    answer: Result<usize, u32>,
    list: [u16; N],
    other: [u16; N],
) -> bool
    requires { N ≤ 5 }
{
    let mut points = [9; N];
    let told = way(1, 4, &LINKS, &CLOSED, from, to, &mut points).map_err(u32::from);
    told == answer && (same_words(&points, &list) || same_words(&points, &other))
}

// Two ways of length 5, and no link.
pub fn two_ways() -> bool {
    gives(0, 3, Ok(3), [0, 1, 3, 9], [0, 2, 3, 9])
}

pub fn alone() -> bool {
    gives(2, 2, Ok(1), [2, 9, 9, 9], [2, 9, 9, 9])
}

pub fn no_way() -> bool {
    gives(3, 0, Err(20), [9; 4], [9; 4])
}

pub fn outside() -> bool {
    gives(4, 0, Err(19), [9; 4], [9; 4])
}

// A list of three words, and one of five.
pub fn other_lists() -> bool {
    gives(0, 3, Err(19), [9; 3], [9; 3]) && gives(0, 3, Err(19), [9; 5], [9; 5])
}
