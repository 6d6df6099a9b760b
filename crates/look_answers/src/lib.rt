// What a call of the lookahead answers, in numbers, for callers in other languages.
#![tactic(auto)]

ghost use Rattle.std.specs.Prelude.{ℕ, ◌≡◌};
ghost use Rattle.look_answers.specs.Told.{number_by, words_told};
ghost use Rattle.looks.specs.Answer.{number_of};

use looks::{Done, Stop};

// What a refusal's number is told of: why a call stopped, or a number that somebody else gives.
pub trait Numbered: Drop {
    ghost number: { Self → ℕ };

    fn number(self) -> u32
        ensures { result ≡ number self };
}

impl Numbered for Stop {
    ghost number = { number_of };

    fn number(self) -> u32 {
        u32::from(self)
    }
}

impl Numbered for u32 {
    ghost number = { λ n. n };

    fn number(self) -> u32 {
        self
    }
}

// Value, count, start, end, and 0 for the place reached; a refusal has no place.
pub fn tell_looked<S: Numbered>(looked: Result<Done, S>, answer: &mut [usize; 5]) -> u32
    ensures { (result ≡ number_by S.number looked) × (answer.new ≡ words_told looked) }
{
    match looked {
        Ok(
            Done {
                count,
                value,
                start,
                end,
            },
        ) => {
            *answer = [value as usize, count, start as usize, end as usize, 0];
            0
        }
        Err(stop) => {
            *answer = [0; 5];
            stop.number()
        }
    }
}
