// The words of a row.
ghost use Rattle.std.specs.Prelude.{◌≡◌, ◌<◌, ◌^◌};
ghost use Rattle.job_form.specs.Words.{word_of, over_in, no_word};
ghost use Rattle.job_form.specs.inner.Tallies.{no_tally, counted};
ghost use Rattle.job_form.specs.inner.RowRead.{RowRead};

use crate::forms::word_at;
use crate::tokens::Token;
use semiring::{Algebra, none, top};
use text::next_part;

// What was found among the words of a row. Flags and not the first reason: which test applies first also rests on the count, which is
// known at the row's end.
#[derive(Clone, Copy)]
pub struct Tally {
    // A part that is no word.
    pub other: bool,
    // A numeral that is over, or `-` in reach.
    pub over: bool,
    // A number above the algebra's words.
    pub above: bool,
    pub count: usize,
}

// A row that was read, and the place of the word after it.
#[derive(Clone, Copy)]
pub struct Row {
    pub tally: Tally,
    pub at: usize,
}

fn word_of(a: Algebra, token: Token) -> u16
    ensures { result ≡ word_of a token }
{
    match token {
        Token::Number(n) => n,
        Token::Dash => none(a),
        _ => 0,
    }
}

fn no_word(token: Token) -> bool
    ensures { result ≡ no_word token }
{
    matches!(token, Token::Name(_) | Token::Other)
}

fn over_in(a: Algebra, token: Token) -> bool
    ensures { result ≡ over_in a token }
{
    match token {
        Token::Over => true,
        Token::Dash => matches!(a, Algebra::Reach),
        _ => false,
    }
}

impl Tally {
    pub fn new() -> Self
        ensures { result ≡ no_tally }
    {
        Tally {
            other: false,
            over: false,
            above: false,
            count: 0,
        }
    }

    // The tally with one word more.
    fn and(self, a: Algebra, token: Token) -> Self
        requires { self.count < 2 ^ 63 }
        ensures { result ≡ counted a self token }
    {
        Tally {
            other: self.other || no_word(token),
            over: self.over || over_in(a, token),
            above: self.above || top(a) < word_of(a, token),
            count: self.count + 1,
        }
    }
}

// Reads the words of a row, which are the parts from `from` on, into the weights from `at` on.
pub fn read_row(line: &[u8], from: usize, a: Algebra, at: usize, weights: &mut [u16]) -> Row
    ensures { RowRead a line.now from at weights.old result.tally result.at weights.new }
{
    let mut next = next_part(line, from);
    let mut tally = Tally::new();
    let mut place = at;
    // A while: each part says where the next begins, and no slice holds them.
    while let Some(part) = next {
        let word = word_at(line, part);
        if place < weights.len() {
            weights[place] = word_of(a, word.token);
            place += 1;
        }
        tally = tally.and(a, word.token);
        next = word.next;
    }
    Row { tally, at: place }
}
