// What a backslash and the scalars after it give. The names and the order are those of the Rust's unescape.rs.
#![tactic(auto)]

ghost use Rattle.std.specs.Prelude.{◌+◌, ◌*◌, ◌%◌, ◌<◌, ◌≡◌, false};
ghost use Rattle.std.specs.Option.{is_some, unwrap_or};
ghost use Rattle.token.specs.declared.reason.Reason.TheVariants.{BadByteEscape, BadUnicodeEscape};
ghost use Rattle.escapes.specs.Escapes.{byte_escape, char_escape, close_of, digits_of, hex_of, line_end, low_only, only_in_template, shared_of, skip_white, unicode_of};
ghost use Rattle.escapes.specs.Numbers.{hex_digit_at, item_or};
ghost use Rattle.text.specs.Utf8.{rest};

use text::Scalar;
use text::character::{
    BACKSLASH, BACKTICK, CARRIAGE_RETURN, CLOSE_BRACE, DIGIT_ZERO, DOLLAR, DOUBLE_QUOTE, LETTER_N,
    LETTER_R, LETTER_T, LETTER_U, LETTER_X, LINE_FEED, OPEN_BRACE, QUOTE,
};
use token::Reason;

// What an escape gives, and the place after the last scalar read: an item, nothing, or a refusal. Three cases, and a place in each: no Option or Result
// has that shape.
#[derive(Clone, Copy)]
pub enum Escape {
    Item { value: u32, next: usize },
    Skipped { next: usize },
    Bad { reason: Reason, next: usize },
}

// As `readers::run_end` over white space; `readers` does not stand below this crate.
fn skip_white(s: &[u8], at: usize) -> usize
    ensures { result ≡ skip_white (rest s.now at) at }
{
    let mut p = at;
    loop {
        let Some(Scalar { value, next }) = text::scalar_at(s, p) else {
            return p;
        };
        if !classes::is_whitespace(value) {
            return p;
        }
        p = next;
    }
}

// A line end after the backslash, where the form goes on in the next line.
fn line_end(s: &[u8], at: usize, lines: bool) -> Escape
    ensures { result ≡ line_end lines (rest s.now at) at }
{
    if lines {
        return Escape::Skipped {
            next: skip_white(s, at),
        };
    }
    Escape::Bad {
        reason: Reason::BadEscapeSequence,
        next: at,
    }
}

// The escapes of one scalar that all forms have.
#[tactic(auto, unfolding(crate::specs::Escapes::shared_of))]
fn shared_escape(v: u32, next: usize) -> Escape
    ensures { result ≡ shared_of v next }
{
    match v {
        QUOTE => Escape::Item { value: QUOTE, next },
        DOUBLE_QUOTE => Escape::Item {
            value: DOUBLE_QUOTE,
            next,
        },
        LETTER_N => Escape::Item {
            value: LINE_FEED,
            next,
        },
        LETTER_R => Escape::Item {
            value: CARRIAGE_RETURN,
            next,
        },
        LETTER_T => Escape::Item { value: 0x09, next },
        BACKSLASH => Escape::Item {
            value: BACKSLASH,
            next,
        },
        DIGIT_ZERO => Escape::Item { value: 0x00, next },
        _ => Escape::Bad {
            reason: Reason::BadEscapeSequence,
            next,
        },
    }
}

pub fn parse_byte_escape(s: &[u8], at: usize, lines: bool) -> Escape
    ensures { result ≡ byte_escape lines (rest s.now at) at }
{
    let Some(Scalar { value, next }) = text::scalar_at(s, at) else {
        return Escape::Bad {
            reason: Reason::BadEscapeSequence,
            next: at,
        };
    };
    match value {
        LINE_FEED | CARRIAGE_RETURN => line_end(s, next, lines),
        LETTER_X => parse_hex_escape(s, next),
        LETTER_U => Escape::Bad {
            reason: Reason::BadUnicodeEscapeInByteString,
            next,
        },
        _ => shared_escape(value, next),
    }
}

// An escape that only templates have.
fn template_escape(v: u32, next: usize, template: bool) -> Escape
    ensures { result ≡ only_in_template template v next }
{
    if template {
        return Escape::Item { value: v, next };
    }
    Escape::Bad {
        reason: Reason::BadEscapeSequence,
        next,
    }
}

pub fn parse_char_escape(s: &[u8], at: usize, template: bool, lines: bool) -> Escape
    ensures { result ≡ char_escape template lines (rest s.now at) at }
{
    let Some(Scalar { value, next }) = text::scalar_at(s, at) else {
        return Escape::Bad {
            reason: Reason::BadEscapeSequence,
            next: at,
        };
    };
    match value {
        LINE_FEED | CARRIAGE_RETURN => line_end(s, next, lines),
        DOLLAR | BACKTICK => template_escape(value, next, template),
        LETTER_X => low_only(parse_hex_escape(s, next)),
        LETTER_U => parse_unicode_escape(s, next),
        _ => shared_escape(value, next),
    }
}

// In text `\x` goes to 7f.
#[tactic(auto, using(crate::proofs::Escapes::low_yes))]
fn low_only(e: Escape) -> Escape
    ensures { result ≡ low_only e }
{
    match e {
        Escape::Item { value, next } if 0x7f < value => Escape::Bad {
            reason: Reason::BadHexEscapeChar,
            next,
        },
        _ => e,
    }
}

// A number that was read, as an item; else a refusal for the reason, at the place where it was found.
fn item_or(reason: Reason, number: Result<Scalar, usize>) -> Escape
    ensures { result ≡ item_or reason number }
{
    match number {
        Ok(Scalar { value, next }) => Escape::Item { value, next },
        Err(next) => Escape::Bad { reason, next },
    }
}

fn parse_hex_escape(s: &[u8], at: usize) -> Escape
    ensures { result ≡ hex_of (rest s.now at) at }
{
    item_or(Reason::BadByteEscape, hex_byte(s, at))
}

// The number of two hex digits, and the place after them.
fn hex_byte(s: &[u8], at: usize) -> Result<Scalar, usize>
    ensures { item_or BadByteEscape result ≡ hex_of (rest s.now at) at }
{
    let high = hex_digit(s, at)?;
    let low = hex_digit(s, high.next)?;
    Ok(Scalar {
        value: high.value * 16 + low.value,
        next: low.next,
    })
}

// What a hex digit stands for, and the place after it; else the place after the scalar that is none, or the end.
fn hex_digit(s: &[u8], at: usize) -> Result<Scalar, usize>
    ensures { result ≡ hex_digit_at (rest s.now at) at }
{
    let Some(Scalar { value, next }) = text::scalar_at(s, at) else {
        return Err(at);
    };
    let Some(value) = classes::hex_value(value) else {
        return Err(next);
    };
    Ok(Scalar { value, next })
}

fn parse_unicode_escape(s: &[u8], at: usize) -> Escape
    ensures { result ≡ unicode_of (rest s.now at) at }
{
    item_or(Reason::BadUnicodeEscape, unicode_number(s, at))
}

// The number in braces, and the place after them.
fn unicode_number(s: &[u8], at: usize) -> Result<Scalar, usize>
    ensures { item_or BadUnicodeEscape result ≡ unicode_of (rest s.now at) at }
{
    let Some(Scalar { value, next }) = text::scalar_at(s, at) else {
        return Err(at);
    };
    if value != OPEN_BRACE {
        return Err(next);
    }
    unicode_digits(s, next)
}

fn unicode_digits(s: &[u8], at: usize) -> Result<Scalar, usize>
    ensures { item_or BadUnicodeEscape result ≡ digits_of false 0 (rest s.now at) at }
{
    let mut p = at;
    let mut x: Option<u32> = None;
    loop {
        let Some(Scalar { value, next }) = text::scalar_at(s, p) else {
            return Err(p);
        };
        if value == CLOSE_BRACE {
            return unicode_close(x, next);
        }
        let Some(digit) = classes::hex_value(value) else {
            return Err(next);
        };
        x = Some(shift_in(x.unwrap_or(0), digit));
        p = next;
    }
}

// The number x after its digits; none where there was no digit.
fn unicode_close(x: Option<u32>, next: usize) -> Result<Scalar, usize>
    ensures { item_or BadUnicodeEscape result ≡ close_of (is_some x) (unwrap_or x 0) next }
{
    match x {
        Some(value) if encoding::is_scalar(value) => Ok(Scalar { value, next }),
        _ => Err(next),
    }
}

// The low 32 bits, as the Rust's shift keeps them, with one more digit.
fn shift_in(x: u32, digit: u32) -> u32
    requires { digit < 16 }
    ensures { result ≡ x * 16 % 0x100000000 + digit }
{
    x % 0x10000000 * 16 + digit
}
