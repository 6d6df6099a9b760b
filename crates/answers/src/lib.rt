// What a call answers, in numbers, for callers in other languages: each equals its definition in specs/.
#![tactic(auto)]

mod form;
mod reading;

ghost use Rattle.std.specs.Prelude.{◌≡◌};
ghost use Rattle.answers.specs.Told.{of_counted, of_listed, of_read, of_refusal, of_tested, told_as};
ghost use Rattle.token.specs.Reads.{reason_number};

pub use form::form_of;
use listing::Stopped;
pub use reading::reading_of;
use token::{Reason, Refusal, Token};

// The number of a refusal, 0 where there is none; and value, count, start, end and the place reached.
#[derive(Clone, Copy)]
pub struct Told {
    pub number: u32,
    pub words: [usize; 5],
}

impl Told {
    // A refusal at a place, before anything is read.
    pub fn point(reason: Reason, at: usize) -> Told
        ensures { result ≡ told_as (reason_number reason) 0 0 at at at }
    {
        Told {
            number: u32::from(reason),
            words: [0, 0, at, at, at],
        }
    }

    pub fn tell(self, answer: &mut [usize; 5]) -> u32
        ensures { (result ≡ self.number) × (answer.new ≡ self.words) }
    {
        let words = self.words;
        *answer = words;
        self.number
    }

    fn counted(count: usize) -> Told
        ensures { result ≡ told_as 0 0 count 0 0 0 }
    {
        Told {
            number: 0,
            words: [0, count, 0, 0, 0],
        }
    }

    fn of_refusal(count: usize, r: Refusal) -> Told
        ensures { result ≡ of_refusal count r }
    {
        Told {
            number: u32::from(r.reason),
            words: [0, count, r.span.start, r.span.end, r.reached],
        }
    }
}

impl From<Result<(), Refusal>> for Told {
    ghost from_gives = { λ answer told. told ≡ of_tested answer };

    fn from(answer: Result<(), Refusal>) -> Told {
        match answer {
            Ok(()) => Told::counted(0),
            Err(refusal) => Told::of_refusal(0, refusal),
        }
    }
}

impl From<Result<Token, Refusal>> for Told {
    ghost from_gives = { λ answer told. told ≡ of_read answer };

    fn from(answer: Result<Token, Refusal>) -> Told {
        match answer {
            Ok(Token { kind, span }) => Told {
                number: 0,
                words: [
                    numbers::number_of(kind) as usize,
                    0,
                    span.start,
                    span.end,
                    span.end,
                ],
            },
            Err(refusal) => Told::of_refusal(0, refusal),
        }
    }
}

impl From<Result<usize, Refusal>> for Told {
    ghost from_gives = { λ answer told. told ≡ of_counted answer };

    fn from(answer: Result<usize, Refusal>) -> Told {
        match answer {
            Ok(count) => Told::counted(count),
            Err(refusal) => Told::of_refusal(0, refusal),
        }
    }
}

impl From<Result<usize, Stopped>> for Told {
    ghost from_gives = { λ answer told. told ≡ of_listed answer };

    fn from(answer: Result<usize, Stopped>) -> Told {
        match answer {
            Ok(count) => Told::counted(count),
            Err(Stopped { count, refusal }) => Told::of_refusal(count, refusal),
        }
    }
}
