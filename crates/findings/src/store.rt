// Findings into the lent store, as long as there is room.
ghost use Rattle.listing.specs.Listing.{stopped_at};
ghost use Rattle.std.specs.Prelude.{◌+◌, ◌-◌, ◌≤◌, ◌≡◌, [], length};
ghost use Rattle.std.proofs.lemmas.List.Edits.{sets};
ghost use Rattle.findings.specs.Findings.{finding_words, listed, no_room_for, words_found};
ghost use Rattle.findings.specs.Notes.{AllSmall, Small, noted_of};

use crate::code::Code;
use listing::Stopped;
use token::{Reason, Refusal, Span};

// A token, from start to before end, and a stretch of the source, from one place to before another.
#[derive(Clone, Copy)]
pub struct Finding {
    pub code: Code,
    pub start: usize,
    pub end: usize,
    pub from: usize,
    pub to: usize,
}

// How many words and findings are stored.
#[derive(Clone, Copy)]
pub struct Noted {
    pub words: usize,
    pub count: usize,
}

fn put(store: &mut [u32], n: usize, f: Finding)
    requires { (n + 5 ≤ length store.old) × Small f }
    ensures { store.new ≡ sets store.old n (finding_words f []) }
{
    store[n] = u32::from(f.code);
    store[n + 1] = f.start as u32;
    store[n + 2] = f.end as u32;
    store[n + 3] = f.from as u32;
    store[n + 4] = f.to as u32;
}

// The store has no place for this one.
fn no_room(count: usize, f: Finding) -> Stopped
    ensures { result ≡ stopped_at count (no_room_for f) }
{
    Stopped {
        count,
        refusal: Refusal {
            reason: Reason::NoRoom,
            span: Span {
                start: f.start,
                end: f.end,
            },
            reached: f.end,
        },
    }
}

pub(crate) fn note(
    store: &mut [u32],
    noted: Noted,
    spotted: Option<Finding>,
) -> Result<Noted, Stopped>
    requires { (noted.words ≤ length store.old) × (noted.count ≤ noted.words) × AllSmall spotted }
    ensures { (result ≡ noted_of (length store.old) noted spotted)
        × (store.new ≡ sets store.old noted.words (words_found (listed spotted) (length store.old - noted.words))) }
{
    let Some(finding) = spotted else {
        return Ok(noted);
    };
    let Noted { words, count } = noted;
    if store.len() - words < 5 {
        return Err(no_room(count, finding));
    }
    put(store, words, finding);
    Ok(Noted {
        words: words + 5,
        count: count + 1,
    })
}
