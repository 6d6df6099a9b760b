// The token reader and the template reader, which call each other with the remaining depth falling.
#![tactic(auto)]

ghost use Rattle.std.specs.Prelude.{◌≡◌};
ghost use Rattle.readers.specs.Rules.{rules_of};
ghost use Rattle.templates.specs.Body.{template_of, token_of};
ghost use Rattle.text.specs.Utf8.{rest};

use choice::read_first;
use readers::Reading;
use text::Scalar;
use text::character::{BACKSLASH, BACKTICK, CLOSE_BRACE, OPEN_BRACE};
use token::{Kind, Reason, Refusal, Token};

// The token at a place, within which `depth` templates may still open, one inside the other.
#[cycle(read_template_read_token)]
pub fn read_token(s: &[u8], reading: Reading, at: usize, depth: u32) -> Result<Token, Refusal>
    ensures { result ≡ token_of (rules_of reading) depth (rest s.now at) at }
{
    let Some(first) = text::scalar_at(s, at) else {
        return token::got(Kind::Eof, at, at);
    };
    let Scalar { value, next } = first;
    if value != BACKTICK {
        return read_first(s, reading, at, first);
    }
    if depth == 0 {
        return token::refused(Reason::TooDeep, at, next, next);
    }
    read_template(s, reading, at, next, depth - 1)
}

// A template that starts at `start`, from after its backtick on.
#[cycle(read_template_read_token)]
fn read_template(
    s: &[u8],
    reading: Reading,
    start: usize,
    at: usize,
    depth: u32,
) -> Result<Token, Refusal>
    ensures { result ≡ template_of (rules_of reading) (token_of (rules_of reading) depth) start (rest s.now at) at }
{
    let mut p = at;
    let mut level: u32 = 0;
    loop {
        let Some(Scalar { value, next }) = text::scalar_at(s, p) else {
            return token::got(Kind::Template { closed: false }, start, p);
        };
        if value == BACKTICK {
            if level == 0 {
                return token::got(Kind::Template { closed: true }, start, next);
            }
            p = next;
        } else if value == OPEN_BRACE {
            level = level.wrapping_add(1);
            p = next;
        } else if value == CLOSE_BRACE {
            level = level.wrapping_sub(1);
            p = next;
        } else if value == BACKSLASH {
            match read_token(s, reading, next, depth) {
                Ok(token) => p = token.span.end,
                Err(
                    Refusal {
                        reason,
                        span,
                        reached,
                    },
                ) => {
                    if reason == Reason::TooDeep {
                        return token::refused(Reason::TooDeep, start, span.end, reached);
                    }
                    p = reached;
                }
            }
        } else {
            p = next;
        }
    }
}
