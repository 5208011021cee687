// The numerals of a line, each looked at once.
ghost use Rattle.road_form.specs.inner.Numbers.{TakenFrom, Ended};

use text::unspaced;

// With ten digits no sum wraps.
const MOST_DIGITS: usize = 10;

// A part that is a numeral, by its number and the place after it.
#[derive(Clone, Copy)]
pub struct Number {
    pub value: u64,
    pub end: usize,
}

// A part that ends with its line.
fn ended(start: usize, at: usize, value: u64) -> Option<Number>
    ensures { Ended start at value result }
{
    if at <= start {
        return None;
    }
    Some(Number { value, end: at })
}

// The first part from `from` on, if it is a numeral, of the line that stands at the beginning of a text.
pub fn next_number(text: &[u8], from: usize) -> Option<Number>
    ensures { TakenFrom text.now from result }
{
    let start = unspaced(text, from);
    let mut value: u64 = 0;
    for at in start..text.len() {
        match text[at] {
            b'0'..=b'9' => {
                if MOST_DIGITS <= at - start {
                    return None;
                }
                value = 10 * value + u64::from(text[at] - b'0');
            }
            b' ' => return Some(Number { value, end: at }),
            b'\n' => return ended(start, at, value),
            _ => return None,
        }
    }
    ended(start, text.len(), value)
}
