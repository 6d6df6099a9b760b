// Why a call refuses, with the Rust's names where it has one. A caller in another language sees the number. The lookahead's refusals are `looks::Stop`.
ghost use Rattle.std.specs.Prelude.{◌≡◌, nat_eq};
ghost use Rattle.std.proofs.Common.{rules};
ghost use Rattle.std.specs.Cmp.Rules.{comparing};
ghost use Rattle.std.specs.Ordering.{on};
ghost use Rattle.token.specs.Reads.{reason_number};

use crate::other::OtherNumber;

#[derive(Clone, Copy)]
pub enum Reason {
    // A source, a position, a store.
    TooLong,
    IllFormed,
    NoRoom,
    NoPlace,
    // A number that a caller in another language gives.
    NoSuchForm,
    NoSuchReading,
    // Reading a token.
    ExpectedEscape,
    UnterminatedCharLit,
    ExpectedCharClose,
    ExpectedCharOrLabel,
    ExpectedByteClose,
    UnterminatedByteLit,
    UnterminatedStrLit,
    UnterminatedByteStrLit,
    UnexpectedChar,
    TooDeep,
    // Escapes and whole bodies.
    BadEscapeSequence,
    BadUnicodeEscapeInByteString,
    BadUnicodeEscape,
    BadHexEscapeChar,
    BadByteEscape,
    NotAscii,
    OutputShort,
    NotOneItem,
    // The stored list.
    BadLength,
    BadMark,
    BadKind,
    Gap,
    // Any other number that a caller gives.
    Other { number: OtherNumber },
}

// By their numbers: what has one number is one reason (`Reasons.reason_one`), and a caller learns the numbers.
impl PartialEq for Reason {
    ghost eq = { on reason_number nat_eq };

    ghost laws = { Prim.search (comparing, rules) };

    fn eq(&self, other: &Reason) -> bool {
        u32::from(*self) == u32::from(*other)
    }
}

impl Eq for Reason {
    ghost laws = { Prim.search (comparing, rules) };
}

impl From<Reason> for u32 {
    ghost from_gives = { λ reason number. number ≡ reason_number reason };

    fn from(reason: Reason) -> u32 {
        match reason {
            Reason::TooLong => 1,
            Reason::IllFormed => 2,
            Reason::NoRoom => 3,
            Reason::NoPlace => 4,
            Reason::NoSuchForm => 5,
            Reason::NoSuchReading => 6,
            Reason::ExpectedEscape => 10,
            Reason::UnterminatedCharLit => 11,
            Reason::ExpectedCharClose => 12,
            Reason::ExpectedCharOrLabel => 13,
            Reason::ExpectedByteClose => 14,
            Reason::UnterminatedByteLit => 15,
            Reason::UnterminatedStrLit => 16,
            Reason::UnterminatedByteStrLit => 17,
            Reason::UnexpectedChar => 18,
            Reason::TooDeep => 19,
            Reason::BadEscapeSequence => 20,
            Reason::BadUnicodeEscapeInByteString => 21,
            Reason::BadUnicodeEscape => 22,
            Reason::BadHexEscapeChar => 23,
            Reason::BadByteEscape => 24,
            Reason::NotAscii => 25,
            Reason::OutputShort => 26,
            Reason::NotOneItem => 27,
            Reason::BadLength => 40,
            Reason::BadMark => 41,
            Reason::BadKind => 42,
            Reason::Gap => 43,
            Reason::Other { number } => number.number,
        }
    }
}

impl From<u32> for Reason {
    ghost from_gives = { λ number reason. reason_number reason ≡ number };

    fn from(number: u32) -> Reason {
        match number {
            1 => Reason::TooLong,
            2 => Reason::IllFormed,
            3 => Reason::NoRoom,
            4 => Reason::NoPlace,
            5 => Reason::NoSuchForm,
            6 => Reason::NoSuchReading,
            10 => Reason::ExpectedEscape,
            11 => Reason::UnterminatedCharLit,
            12 => Reason::ExpectedCharClose,
            13 => Reason::ExpectedCharOrLabel,
            14 => Reason::ExpectedByteClose,
            15 => Reason::UnterminatedByteLit,
            16 => Reason::UnterminatedStrLit,
            17 => Reason::UnterminatedByteStrLit,
            18 => Reason::UnexpectedChar,
            19 => Reason::TooDeep,
            20 => Reason::BadEscapeSequence,
            21 => Reason::BadUnicodeEscapeInByteString,
            22 => Reason::BadUnicodeEscape,
            23 => Reason::BadHexEscapeChar,
            24 => Reason::BadByteEscape,
            25 => Reason::NotAscii,
            26 => Reason::OutputShort,
            27 => Reason::NotOneItem,
            40 => Reason::BadLength,
            41 => Reason::BadMark,
            42 => Reason::BadKind,
            43 => Reason::Gap,
            _ => Reason::Other {
                number: OtherNumber { number },
            },
        }
    }
}
