// A char or a label, from after the `'` on.
#![tactic(auto)]

ghost use Rattle.std.specs.Prelude.{◌≡◌};
ghost use Rattle.readers.specs.Readers.{char_answer, char_of, in_label, letters};
ghost use Rattle.text.specs.Utf8.{rest, width};

use text::Scalar;
use text::character::{BACKSLASH, QUOTE};
use token::{Kind, Reason, Refusal, Token};

fn in_label(v: u32) -> bool
    ensures { result ≡ in_label v }
{
    matches!(v, 48..=57 | 97..=122)
}

// The answer at the end or the stop: whether it is a label still, and whether anything stands in it.
fn char_or_label(label: bool, some: bool, start: usize, end: usize) -> Result<Token, Refusal>
    ensures { result ≡ char_answer start (letters label some) end end }
{
    match (label, some) {
        (true, true) => token::got(Kind::Label, start, end),
        (false, true) => token::got(Kind::Char, start, end),
        (true, false) => token::refused(Reason::ExpectedCharOrLabel, start, end, end),
        (false, false) => token::refused(Reason::ExpectedCharClose, start, end, end),
    }
}

pub fn next_char_or_label(s: &[u8], start: usize, at: usize) -> Result<Token, Refusal>
    ensures { result ≡ char_of width start (rest s.now at) at }
{
    let mut p = at;
    let mut label = true;
    let mut some = false;
    loop {
        let Some(Scalar { value, next }) = text::scalar_at(s, p) else {
            return char_or_label(label, some, start, p);
        };
        if value == QUOTE {
            return char_or_label(false, some, start, next);
        }
        if value == BACKSLASH {
            label = false;
            some = true;
            p = readers::escaped_end(s, p, next)?;
        } else if in_label(value) {
            some = true;
            p = next;
        } else {
            if classes::is_control(value) {
                return token::refused(Reason::UnterminatedCharLit, start, p, p);
            }
            if label && some {
                return token::got(Kind::Label, start, p);
            }
            label = false;
            some = true;
            p = next;
        }
    }
}
