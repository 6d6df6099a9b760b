// Every rule but the template's. The scalar read first stands at `start`.
#![tactic(auto)]

ghost use Rattle.std.specs.Prelude.{◌≡◌};
ghost use Rattle.choice.specs.Rule.{first_of, left_of, no_template, other_of};
ghost use Rattle.readers.specs.Rules.{rules_of, rune};
ghost use Rattle.text.specs.Utf8.{rest};

use operators::Operator;
use readers::Reading;
use text::Scalar;
use text::character::{DOUBLE_QUOTE, LETTER_B, QUOTE, SLASH, STAR, UNDERSCORE};
use token::{Kind, Reason, Refusal, Token};

// Words, numbers, char or label, in every reading; 18 where no rule fits.
fn read_left(s: &[u8], start: usize, first: Scalar) -> Result<Token, Refusal>
    ensures { result ≡ left_of (rules_of rune) no_template first.value start (rest s.now first.next) first.next }
{
    let Scalar { value, next } = first;
    if value == UNDERSCORE {
        return words::next_ident(s, value, start, next);
    }
    if classes::is_xid_start(value) {
        return words::next_ident(s, value, start, next);
    }
    if classes::is_ascii_digit(value) {
        return words::next_number_literal(s, value, start, next);
    }
    if value == QUOTE {
        return chars::next_char_or_label(s, start, next);
    }
    token::refused(Reason::UnexpectedChar, start, next, next)
}

fn read_other(s: &[u8], start: usize, first: Scalar) -> Result<Token, Refusal>
    ensures { result ≡ other_of (rules_of rune) no_template first.value start (rest s.now first.next) first.next }
{
    let Some(Operator { kind, end }) = operators::next_operator(s, first.value, first.next) else {
        return read_left(s, start, first);
    };
    token::got(kind, start, end)
}

// `read_other` is called once, at the end: so the compiler inlines it, and the answer for an operator or a word is not copied once more.
pub fn read_first(s: &[u8], reading: Reading, start: usize, first: Scalar) -> Result<Token, Refusal>
    ensures { result ≡ first_of (rules_of reading) no_template first.value start (rest s.now first.next) first.next }
{
    let Scalar { value, next } = first;
    if classes::is_whitespace(value) {
        return token::got(
            Kind::Whitespace,
            start,
            readers::consume_whitespace(s, next),
        );
    }
    if value == DOUBLE_QUOTE {
        return strings::next_str(s, false, start, next);
    }
    if value == SLASH {
        if let Some(second) = text::scalar_at(s, next) {
            if second.value == SLASH {
                return token::got(Kind::Comment, start, readers::consume_line(s, second.next));
            }
            if second.value == STAR {
                return readers::next_multiline_comment(s, reading.comments, start, second.next);
            }
        }
    }
    if value == LETTER_B {
        if let Some(second) = text::scalar_at(s, next) {
            if second.value == QUOTE {
                return strings::next_lit_byte(s, start, second.next);
            }
            if second.value == DOUBLE_QUOTE {
                return strings::next_str(s, true, start, second.next);
            }
        }
    }
    read_other(s, start, first)
}
