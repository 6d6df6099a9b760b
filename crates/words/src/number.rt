// Numbers, from after their first digit on, with document 02's exponents.
ghost use Rattle.std.specs.Prelude.{◌≡◌, true};
ghost use Rattle.readers.specs.Numbers.{begins_digit, first_part, in_digits, in_number, is_base, joins, number_lit_of, part_on, part_past_dot, past_digits, takes_sign};
ghost use Rattle.text.specs.Utf8.{first, rest, width};

use readers::{Part, Test};
use text::Scalar;
use text::character::{
    CAPITAL_E, DIGIT_ZERO, DOT, LETTER_B, LETTER_E, LETTER_O, LETTER_X, MINUS, PLUS, UNDERSCORE,
};
use token::{Kind, Refusal, Token};

// A letter, a digit or `_`, all ASCII.
fn in_number(v: u32) -> bool
    ensures { result ≡ in_number v }
{
    matches!(v, 48..=57 | 65..=90 | 95 | 97..=122)
}

// A digit or `_`.
fn in_digits(v: u32) -> bool
    ensures { result ≡ in_digits v }
{
    v == UNDERSCORE || classes::is_ascii_digit(v)
}

struct InDigits;

impl Test for InDigits {
    ghost passing = { in_digits };

    fn passes(v: u32) -> bool {
        in_digits(v)
    }
}

fn digit_at(s: &[u8], at: usize) -> bool
    ensures { result ≡ begins_digit (rest s.now at) }
{
    let Some(Scalar { value, next: _ }) = text::scalar_at(s, at) else {
        return false;
    };
    classes::is_ascii_digit(value)
}

fn first_part(first: u32) -> Part
    ensures { result ≡ first_part first }
{
    if first == DIGIT_ZERO {
        Part::Zero
    } else {
        Part::Digits
    }
}

// Digits and `_`, and one scalar more.
fn past_digits(v: u32) -> Part
    ensures { result ≡ past_digits v }
{
    if in_digits(v) {
        Part::Digits
    } else if matches!(v, LETTER_E | CAPITAL_E) {
        Part::Exponent
    } else {
        Part::Mixed
    }
}

fn is_base(v: u32) -> bool
    ensures { result ≡ is_base v }
{
    matches!(v, LETTER_X | LETTER_B | LETTER_O)
}

fn part_on(part: Part, v: u32) -> Part
    ensures { result ≡ part_on part v }
{
    match part {
        Part::Zero if is_base(v) => Part::Based,
        Part::Zero | Part::Digits => past_digits(v),
        Part::Exponent | Part::Mixed => Part::Mixed,
        Part::Based => Part::Based,
    }
}

fn past_dot(part: Part) -> Part
    ensures { result ≡ part_past_dot part }
{
    match part {
        Part::Based => Part::Based,
        _ => Part::Digits,
    }
}

fn takes_sign(part: Part) -> bool
    ensures { result ≡ takes_sign part }
{
    matches!(part, Part::Exponent)
}

// Whether `v` is the first `.`, or the sign of an exponent.
fn joins(whole: bool, part: Part, v: u32) -> bool
    ensures { result ≡ joins whole part v }
{
    match v {
        DOT => whole,
        PLUS | MINUS => takes_sign(part),
        _ => false,
    }
}

// A number that begins with the digit `first`.
pub fn next_number_literal(s: &[u8], first: u32, start: usize, at: usize) -> Result<Token, Refusal>
    ensures { result ≡ number_lit_of width true first start (rest s.now at) at }
{
    let mut p = at;
    let mut whole = true;
    let mut part = first_part(first);
    loop {
        let Some(Scalar { value, next }) = text::scalar_at(s, p) else {
            return token::got(Kind::Number, start, p);
        };
        if in_number(value) {
            part = part_on(part, value);
            p = next;
        } else if joins(whole, part, value) && digit_at(s, next) {
            if value != DOT {
                return token::got(
                    Kind::Number,
                    start,
                    readers::run_end_by::<InDigits>(s, next),
                );
            }
            whole = false;
            part = past_dot(part);
            p = next;
        } else {
            return token::got(Kind::Number, start, p);
        }
    }
}
