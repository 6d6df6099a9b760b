// Operators: branches on the first scalar, then the second; a third is always `=`.
#![tactic(auto)]

ghost use Rattle.std.specs.Prelude.{◌≡◌};
ghost use Rattle.operators.specs.Operators.{find_one, look_one, look_three, look_two, ones, operator_of, threes, twos};
ghost use Rattle.text.specs.Utf8.{first, rest, width};

use text::Scalar;
use token::{Bracket, Kind};

// An operator's kind and the place after it.
#[derive(Clone, Copy)]
pub struct Operator {
    pub kind: Kind,
    pub end: usize,
}

#[tactic(auto, unfolding(crate::specs::Operators::look_one, crate::specs::Operators::ones))]
fn single_of(a: u32) -> Option<Kind>
    ensures { result ≡ look_one ones a }
{
    let kind = match a {
        33 => Kind::Bang,
        35 => Kind::Pound,
        36 => Kind::Dollar,
        37 => Kind::Perc,
        38 => Kind::Amp,
        40 => Kind::Open {
            bracket: Bracket::Round,
        },
        41 => Kind::Close {
            bracket: Bracket::Round,
        },
        42 => Kind::Star,
        43 => Kind::Plus,
        44 => Kind::Comma,
        45 => Kind::Dash,
        46 => Kind::Dot,
        47 => Kind::Div,
        58 => Kind::Colon,
        59 => Kind::SemiColon,
        60 => Kind::Lt,
        61 => Kind::Eq,
        62 => Kind::Gt,
        63 => Kind::QuestionMark,
        64 => Kind::At,
        91 => Kind::Open {
            bracket: Bracket::Square,
        },
        93 => Kind::Close {
            bracket: Bracket::Square,
        },
        94 => Kind::Caret,
        123 => Kind::Open {
            bracket: Bracket::Curly,
        },
        124 => Kind::Pipe,
        125 => Kind::Close {
            bracket: Bracket::Curly,
        },
        126 => Kind::Tilde,
        _ => return None,
    };
    Some(kind)
}

#[tactic(auto, unfolding(crate::specs::Operators::look_two, crate::specs::Operators::twos))]
fn pair_of(a: u32, b: u32) -> Option<Kind>
    ensures { result ≡ look_two twos a b }
{
    let kind = match (a, b) {
        (33, 61) => Kind::BangEq,
        (37, 61) => Kind::PercEq,
        (38, 38) => Kind::AmpAmp,
        (38, 61) => Kind::AmpEq,
        (42, 61) => Kind::StarEq,
        (43, 61) => Kind::PlusEq,
        (45, 61) => Kind::DashEq,
        (45, 62) => Kind::Arrow,
        (46, 46) => Kind::DotDot,
        (47, 61) => Kind::SlashEq,
        (58, 58) => Kind::ColonColon,
        (60, 60) => Kind::LtLt,
        (60, 61) => Kind::LtEq,
        (61, 61) => Kind::EqEq,
        (61, 62) => Kind::Rocket,
        (62, 61) => Kind::GtEq,
        (62, 62) => Kind::GtGt,
        (94, 61) => Kind::CaretEq,
        (124, 61) => Kind::PipeEq,
        (124, 124) => Kind::PipePipe,
        _ => return None,
    };
    Some(kind)
}

#[tactic(auto, unfolding(crate::specs::Operators::look_three, crate::specs::Operators::threes))]
fn triple_of(a: u32, b: u32, c: u32) -> Option<Kind>
    ensures { result ≡ look_three threes a b c }
{
    match (a, b, c) {
        (46, 46, 61) => Some(Kind::DotDotEq),
        (60, 60, 61) => Some(Kind::LtLtEq),
        (62, 62, 61) => Some(Kind::GtGtEq),
        _ => None,
    }
}

#[tactic(auto, unfolding(crate::specs::Operators::find_one))]
fn single_at(first: u32, end: usize) -> Option<Operator>
    ensures { result ≡ find_one first end }
{
    let kind = single_of(first)?;
    Some(Operator { kind, end })
}

// The operator that begins with the scalar `first`, which ends at a place.
pub fn next_operator(s: &[u8], first: u32, at: usize) -> Option<Operator>
    ensures { result ≡ operator_of width first (rest s.now at) at }
{
    let Some(
        Scalar {
            value: second,
            next,
        },
    ) = text::scalar_at(s, at)
    else {
        return single_at(first, at);
    };
    let Some(short) = pair_of(first, second) else {
        return single_at(first, at);
    };
    let Some(
        Scalar {
            value: third,
            next: end,
        },
    ) = text::scalar_at(s, next)
    else {
        return Some(Operator {
            kind: short,
            end: next,
        });
    };
    let Some(long) = triple_of(first, second, third) else {
        return Some(Operator {
            kind: short,
            end: next,
        });
    };
    Some(Operator { kind: long, end })
}
