// What a part of a line stands for.
ghost use Rattle.std.specs.Prelude.{◌≡◌};
ghost use Rattle.job_form.specs.Tokens.{numeral_token, name, token_of};

use semiring::Algebra;
use text::{all_digits, equal, read_numeral};

#[derive(Clone, Copy)]
pub enum Token {
    // A numeral that is a 16-bit number.
    Number(u16),
    // A numeral over five digits or above 65535.
    Over,
    // `-`, the none word.
    Dash,
    // The name of an algebra.
    Name(Algebra),
    Other,
}

fn number(part: &[u8]) -> Token
    ensures { result ≡ numeral_token part.now }
{
    match read_numeral(part, 5, 65535) {
        Some(n) => Token::Number(n as u16),
        None => Token::Over,
    }
}

// By ifs, as `opening`.
#[tactic(auto, unfolding(crate::specs::Tokens::name))]
fn algebra_name(part: &[u8]) -> Token
    ensures { result ≡ name part.now }
{
    if equal(part, b"reach") {
        return Token::Name(Algebra::Reach);
    }
    if equal(part, b"distance") {
        return Token::Name(Algebra::Distance);
    }
    if equal(part, b"steepest") {
        return Token::Name(Algebra::Steepest);
    }
    Token::Other
}

pub fn token_of(part: &[u8]) -> Token
    ensures { result ≡ token_of part.now }
{
    if part.is_empty() {
        return Token::Other;
    }
    if all_digits(part) {
        return number(part);
    }
    if equal(part, b"-") {
        return Token::Dash;
    }
    algebra_name(part)
}
