// Decimal numerals without leading zeros, and a table's words.
ghost use Rattle.std.specs.Prelude.{◌≡◌, ◌+◌, ◌<◌, ◌++◌, cond, eqb};
ghost use Rattle.text.specs.Ascii.{ascii};
ghost use Rattle.text.specs.Numeral.{numeral, shown};
ghost use Rattle.text.specs.inner.Printed.{Printed};

use crate::page::Page;

fn digit(n: u32) -> u8
    requires { n < 10 }
    ensures { result ≡ 48 + n }
{
    b'0' + n as u8
}

impl Page<'_> {
    // The last `most` digits of n.
    fn digits(&mut self, most: u32, n: u32)
        ensures { Printed self.old (numeral most n) self.new }
    {
        if most < 1 {
            return;
        }
        if n >= 10 {
            self.digits(most - 1, n / 10);
            self.byte(digit(n % 10));
        } else {
            self.byte(digit(n));
        }
    }

    // A number of at most 5 digits.
    pub fn number(&mut self, n: u32)
        ensures { Printed self.old (shown n) self.new }
    {
        if n < 10 {
            self.byte(digit(n));
        } else {
            self.digits(5, n);
        }
    }

    // A number after a space.
    pub fn spaced(&mut self, n: u32)
        ensures { Printed self.old (ascii " " ++ shown n) self.new }
    {
        self.text(b" ");
        self.number(n);
    }

    // A word, or `-` where it is the none word given.
    pub fn unless(&mut self, none: u16, word: u16)
        ensures { Printed self.old (cond (eqb word none) (ascii "-") (shown word)) self.new }
    {
        if word == none {
            self.text(b"-");
        } else {
            self.number(u32::from(word));
        }
    }
}
