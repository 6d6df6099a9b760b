// The token of a source at a position: the shebang at 0, the source's end in the span of `ExpectedCharClose`, and the tests before reading.
// Equal to specs/, on every slice and position.
#![tactic(auto)]

ghost use Rattle.std.specs.Prelude.{◌≡◌};
ghost use Rattle.lexer.specs.Next.{close_span, is_shebang, next_at, past_start_at, read_at};
ghost use Rattle.text.specs.Utf8.{rest};

use readers::Reading;
use templates::read_token;
use text::Scalar;
use text::character::{BANG, HASH};
use token::{Kind, Reason, Refusal, Token};

fn is_shebang(s: &[u8]) -> bool
    ensures { result ≡ is_shebang (rest s.now 0) }
{
    let Some(Scalar { value: first, next }) = text::scalar_at(s, 0) else {
        return false;
    };
    if first != HASH {
        return false;
    }
    let Some(Scalar { value: second, .. }) = text::scalar_at(s, next) else {
        return false;
    };
    second == BANG
}

// A `match` on both cases: with `let .. else` the answer is copied whole, and docs/DECISIONS.md has what that costs.
fn close_span(end: usize, r: Result<Token, Refusal>) -> Result<Token, Refusal>
    ensures { result ≡ close_span end r }
{
    match r {
        Ok(token) => Ok(token),
        Err(refusal) => {
            if refusal.reason != Reason::ExpectedCharClose {
                return Err(refusal);
            }
            token::refused(
                Reason::ExpectedCharClose,
                refusal.span.start,
                end,
                refusal.reached,
            )
        }
    }
}

// For a place past 0, where no shebang is looked for; for a caller that has tested the source once. Total on every slice and position.
pub fn next_past_start(s: &[u8], reading: Reading, at: usize) -> Result<Token, Refusal>
    ensures { result ≡ past_start_at reading s.now at }
{
    close_span(s.len(), read_token(s, reading, at, 64))
}

// For a caller that has tested the source once: total on every slice and position.
pub fn next(s: &[u8], reading: Reading, at: usize) -> Result<Token, Refusal>
    ensures { result ≡ next_at reading s.now at }
{
    if at == 0 && is_shebang(s) {
        return token::got(Kind::Shebang, 0, readers::consume_line(s, 2));
    }
    next_past_start(s, reading, at)
}

pub fn read(s: &[u8], reading: Reading, at: usize) -> Result<Token, Refusal>
    ensures { result ≡ read_at reading s.now at }
{
    source_test::test_position(s, at)?;
    next(s, reading, at)
}
