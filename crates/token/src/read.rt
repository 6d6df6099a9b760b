// A token with its span, and a refusal with its reason, its span and the place reached.
ghost use Rattle.std.specs.Prelude.{◌≡◌};
ghost use Rattle.token.specs.Reads.{got_of, point_refusal, refusal_in, refused_of};

use crate::kind::Kind;
use crate::other::OtherNumber;
use crate::reason::Reason;

// Bytes from start to before end; a point where the two are equal.
#[derive(Clone, Copy, PartialEq, Eq)]
pub struct Span {
    pub start: usize,
    pub end: usize,
}

#[derive(Clone, Copy)]
pub struct Token {
    pub kind: Kind,
    pub span: Span,
}

#[derive(Clone, Copy, PartialEq, Eq)]
pub struct Refusal {
    pub reason: Reason,
    pub span: Span,
    pub reached: usize,
}

pub fn got(kind: Kind, start: usize, end: usize) -> Result<Token, Refusal>
    ensures { result ≡ got_of kind start end }
{
    Ok(Token {
        kind,
        span: Span { start, end },
    })
}

// A refusal of a place or of a record alone.
pub fn point(reason: Reason, at: usize) -> Refusal
    ensures { result ≡ point_refusal reason at }
{
    Refusal {
        reason,
        span: Span { start: at, end: at },
        reached: at,
    }
}

pub fn refused(reason: Reason, start: usize, end: usize, reached: usize) -> Result<Token, Refusal>
    ensures { result ≡ refused_of reason start end reached }
{
    Err(Refusal {
        reason,
        span: Span { start, end },
        reached,
    })
}

// The refusal of an answer; of a token, one with number 0 at its end.
pub fn refusal_in(answer: Result<Token, Refusal>) -> Refusal
    ensures { result ≡ refusal_in answer }
{
    match answer {
        Ok(token) => point(
            Reason::Other {
                number: OtherNumber { number: 0 },
            },
            token.span.end,
        ),
        Err(refusal) => refusal,
    }
}
