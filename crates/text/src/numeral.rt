// Decimal numerals that are read.
ghost use Rattle.std.specs.Prelude.{◌≡◌, ◌-◌, ◌≤◌, ◌^◌};
ghost use Rattle.text.specs.Numeral.{digits, numeral_of};

pub fn all_digits(part: &[u8]) -> bool
    ensures { result ≡ digits part.now }
{
    part.iter().all(u8::is_ascii_digit)
}

fn digit(byte: u8) -> u64
    ensures { (result ≡ byte - 48) × (result ≤ 255) }
{
    if byte < b'0' { 0 } else { (byte - b'0') as u64 }
}

// The number that decimal digits stand for, if it has at most `long` of them and is at most `most`. It is held above `most` as
// soon as it is there, so no sum wraps.
pub fn read_numeral(part: &[u8], long: usize, most: u64) -> Option<u64>
    requires { most ≤ 2 ^ 48 }
    ensures { result ≡ numeral_of long most part.now }
{
    if long < part.len() {
        return None;
    }
    let mut value: u64 = 0;
    for byte in part {
        value = 10 * value + digit(*byte);
        if most < value {
            return None;
        }
    }
    Some(value)
}
