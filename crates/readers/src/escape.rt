// A backslash and the scalar that it takes along.
ghost use Rattle.std.specs.Prelude.{◌≡◌};
ghost use Rattle.readers.specs.Readers.{taken_of};
ghost use Rattle.text.specs.Utf8.{rest, width};

use text::Scalar;
use token::{Reason, Refusal, Span};

// The place after the scalar at a place, which the backslash at `slash` takes along.
pub fn escaped_end(s: &[u8], slash: usize, at: usize) -> Result<usize, Refusal>
    ensures { result ≡ taken_of width slash (rest s.now at) at }
{
    let Some(Scalar { next, .. }) = text::scalar_at(s, at) else {
        return Err(Refusal {
            reason: Reason::ExpectedEscape,
            span: Span {
                start: slash,
                end: at,
            },
            reached: at,
        });
    };
    Ok(next)
}
