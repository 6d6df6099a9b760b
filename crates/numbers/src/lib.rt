// The number that is a kind's outside form. Its laws (`Inverse`) say that it and `Kinds.kind_of` are inverse wherever a number has one kind.
#![tactic(auto)]

ghost use Rattle.std.specs.Prelude.{◌≡◌};
ghost use Rattle.numbers.specs.Kinds.{number_of};

use token::{Bracket, Kind};

// A function, since `From` would have to stand beside `Kind`, below the definition. An arm a kind, as the definition has them.
#[tactic(auto, unfolding(crate::specs::Kinds::number_of))]
pub fn number_of(kind: Kind) -> u32
    ensures { result ≡ number_of kind }
{
    match kind {
        Kind::Whitespace => 1,
        Kind::Comment => 2,
        Kind::MultilineComment { closed } => if closed { 3 } else { 4 },
        Kind::Shebang => 5,
        Kind::Ident => 6,
        Kind::Underscore => 7,
        Kind::Number => 8,
        Kind::Char => 9,
        Kind::Byte => 10,
        Kind::Str { escaped } => if escaped { 12 } else { 11 },
        Kind::ByteStr { escaped } => if escaped { 14 } else { 13 },
        Kind::Label => 15,
        Kind::Template { closed: _ } => 16,
        Kind::Bang => 17,
        Kind::Pound => 18,
        Kind::Dollar => 19,
        Kind::Perc => 20,
        Kind::Amp => 21,
        Kind::Open { bracket } => match bracket {
            Bracket::Round => 22,
            Bracket::Square => 37,
            Bracket::Curly => 40,
        },
        Kind::Close { bracket } => match bracket {
            Bracket::Round => 23,
            Bracket::Square => 38,
            Bracket::Curly => 42,
        },
        Kind::Star => 24,
        Kind::Plus => 25,
        Kind::Comma => 26,
        Kind::Dash => 27,
        Kind::Dot => 28,
        Kind::Div => 29,
        Kind::Colon => 30,
        Kind::SemiColon => 31,
        Kind::Lt => 32,
        Kind::Eq => 33,
        Kind::Gt => 34,
        Kind::QuestionMark => 35,
        Kind::At => 36,
        Kind::Caret => 39,
        Kind::Pipe => 41,
        Kind::Tilde => 43,
        Kind::BangEq => 44,
        Kind::PercEq => 45,
        Kind::AmpAmp => 46,
        Kind::AmpEq => 47,
        Kind::StarEq => 48,
        Kind::PlusEq => 49,
        Kind::DashEq => 50,
        Kind::Arrow => 51,
        Kind::DotDot => 52,
        Kind::SlashEq => 53,
        Kind::ColonColon => 54,
        Kind::LtLt => 55,
        Kind::LtEq => 56,
        Kind::EqEq => 57,
        Kind::Rocket => 58,
        Kind::GtEq => 59,
        Kind::GtGt => 60,
        Kind::CaretEq => 61,
        Kind::PipeEq => 62,
        Kind::PipePipe => 63,
        Kind::DotDotEq => 64,
        Kind::LtLtEq => 65,
        Kind::GtGtEq => 66,
        Kind::Eof => 67,
    }
}
