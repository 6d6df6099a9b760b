// The readings by number.
ghost use Rattle.std.specs.Prelude.{◌≡◌};
ghost use Rattle.answers.specs.Readings.{reading_of};

use readers::{Comments, Reading};

// A function, and no `TryFrom`: neither type is of this crate. By halves, so that neither reading costs a call more than the other.
#[tactic(auto, using(crate::proofs::Readings::reading_none, crate::proofs::Readings::reading_one, crate::proofs::Readings::reading_two))]
pub fn reading_of(n: u32) -> Option<Reading>
    ensures { result ≡ reading_of n }
{
    if n < 2 {
        if n == 0 {
            return None;
        }
        return Some(Reading {
            comments: Comments::Crate,
        });
    }
    if 2 < n {
        return None;
    }
    Some(Reading {
        comments: Comments::First,
    })
}
