// A token list row by row: its first refusal, proved equal to the definition, and the answer of what writes or reads it.
#![tactic(auto)]

ghost use Rattle.std.specs.Prelude.{◌≡◌, Err};
ghost use Rattle.rows.specs.Rows.{list_check, record_check};
ghost use Rattle.token.specs.Reads.{point_refusal};

use token::{Reason, Refusal};

// How many words a token takes in a list: its kind's number, its start and its end.
pub const ROW: usize = 3;

// A fault of the record n.
pub fn faulty(reason: Reason, n: usize) -> Result<(), Refusal>
    ensures { result ≡ Err (point_refusal reason n) }
{
    Err(token::point(reason, n))
}

// A token as a list or a stored record has it: its kind's number, its start and its end.
#[derive(Clone, Copy)]
pub struct Record {
    pub kind: u32,
    pub start: u32,
    pub end: u32,
}

impl Record {
    // As the record n, where the one before ended at `last`.
    #[tactic(auto, using(crate::proofs::Rows::record_low, crate::proofs::Rows::record_high, crate::proofs::Rows::record_gap, crate::proofs::Rows::record_empty, crate::proofs::Rows::record_sound))]
    pub fn check(self, n: usize, last: u32) -> Result<(), Refusal>
        ensures { result ≡ record_check n last self.kind self.start self.end }
    {
        let Record { kind, start, end } = self;
        if !matches!(kind, 1..=66) {
            return faulty(Reason::BadKind, n);
        }
        if start != last || end <= start {
            return faulty(Reason::Gap, n);
        }
        Ok(())
    }
}

#[tactic(auto, using(crate::proofs::Rows::list_refused))]
pub fn check_list(list: &[u32]) -> Result<(), Refusal>
    ensures { result ≡ list_check list.now }
{
    let (rows, rest) = list.as_chunks::<ROW>();
    if !rest.is_empty() {
        return faulty(Reason::BadLength, 0);
    }
    let mut last: u32 = 0;
    for (n, row) in rows.iter().enumerate() {
        let [kind, start, end] = *row;
        Record { kind, start, end }.check(n, last)?;
        last = end;
    }
    Ok(())
}
