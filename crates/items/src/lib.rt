// The forms of a body, and what a scalar of one begins: an item, nothing, or a fault. Proved equal to the definitions in specs/.
#![tactic(auto)]

ghost use Rattle.std.specs.Prelude.{◌≡◌};
ghost use Rattle.items.specs.Items.{is_bytes, is_single, is_template, item_of};
ghost use Rattle.text.specs.Utf8.{rest};

use escapes::{Escape, parse_byte_escape, parse_char_escape};
use text::character::BACKSLASH;
use token::Reason;

// How a body is read. A char or a byte is one item.
#[derive(Clone, Copy, PartialEq, Eq)]
pub enum Form {
    Text,
    Template,
    Char,
    ByteText,
    Byte,
}

impl Form {
    pub fn is_bytes(self) -> bool
        ensures { result ≡ is_bytes self }
    {
        matches!(self, Form::ByteText | Form::Byte)
    }

    pub fn is_single(self) -> bool
        ensures { result ≡ is_single self }
    {
        matches!(self, Form::Char | Form::Byte)
    }

    pub fn is_template(self) -> bool
        ensures { result ≡ is_template self }
    {
        matches!(self, Form::Template)
    }
}

// What the scalar v begins; `next` is the place after it.
#[tactic(auto, using(crate::proofs::Begins::item_byte, crate::proofs::Begins::item_char, crate::proofs::Begins::item_high, crate::proofs::Begins::item_low, crate::proofs::Begins::item_plain))]
pub fn item_at(s: &[u8], form: Form, v: u32, next: usize) -> Escape
    ensures { result ≡ item_of form v (rest s.now next) next }
{
    if v == BACKSLASH {
        if form.is_bytes() {
            return parse_byte_escape(s, next, !form.is_single());
        }
        return parse_char_escape(s, next, form.is_template(), !form.is_single());
    }
    if form.is_bytes() && 0x7f < v {
        return Escape::Bad {
            reason: Reason::NotAscii,
            next,
        };
    }
    Escape::Item { value: v, next }
}
