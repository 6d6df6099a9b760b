// Bytes, strings and byte strings, from after their opening on.
#![tactic(auto)]

ghost use Rattle.std.specs.Prelude.{◌≡◌};
ghost use Rattle.readers.specs.Readers.{byte_of, str_kind, str_of, str_reason};
ghost use Rattle.text.specs.Utf8.{rest, width};

use text::Scalar;
use text::character::{BACKSLASH, DOUBLE_QUOTE, QUOTE};
use token::{Kind, Reason, Refusal, Token};

pub fn next_lit_byte(s: &[u8], start: usize, at: usize) -> Result<Token, Refusal>
    ensures { result ≡ byte_of width start (rest s.now at) at }
{
    let Some(Scalar { next: first, .. }) = text::scalar_at(s, at) else {
        return token::refused(Reason::ExpectedByteClose, start, at, at);
    };
    let mut p = first;
    loop {
        let Some(Scalar { value, next }) = text::scalar_at(s, p) else {
            return token::refused(Reason::ExpectedByteClose, start, p, p);
        };
        if value == BACKSLASH {
            p = readers::escaped_end(s, p, next)?;
        } else if value == QUOTE {
            return token::got(Kind::Byte, start, next);
        } else if classes::is_control(value) {
            return token::refused(Reason::UnterminatedByteLit, start, next, next);
        } else {
            p = next;
        }
    }
}

// Which string it is: its kind by the escape mark, and its refusal at the end.
fn str_kind(bytes: bool, escaped: bool) -> Kind
    ensures { result ≡ str_kind bytes escaped }
{
    if bytes {
        Kind::ByteStr { escaped }
    } else {
        Kind::Str { escaped }
    }
}

fn str_reason(bytes: bool) -> Reason
    ensures { result ≡ str_reason bytes }
{
    if bytes {
        Reason::UnterminatedByteStrLit
    } else {
        Reason::UnterminatedStrLit
    }
}

pub fn next_str(s: &[u8], bytes: bool, start: usize, at: usize) -> Result<Token, Refusal>
    ensures { result ≡ str_of width bytes start (rest s.now at) at }
{
    let mut p = at;
    let mut escaped = false;
    loop {
        let Some(Scalar { value, next }) = text::scalar_at(s, p) else {
            return token::refused(str_reason(bytes), start, p, p);
        };
        if value == DOUBLE_QUOTE {
            return token::got(str_kind(bytes, escaped), start, next);
        }
        if value == BACKSLASH {
            p = readers::escaped_end(s, p, next)?;
            escaped = true;
        } else {
            p = next;
        }
    }
}
