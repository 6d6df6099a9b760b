// What is tried on a source, in memory that is alike in pairs before and after.
use listing::Stopped;
use places::part;
use readers::Reading;
use token::{Reason, Refusal};

#[derive(Clone, Copy, Drop)]
pub(crate) enum Tried {
    WellFormed,
    IllFormed,
    Different,
}

// Where the outline and its outline go, and where the words of the source's tokens and of its outline's go.
#[derive(Drop)]
pub(crate) struct Desk<const BYTES: usize, const WORDS: usize> {
    once: [u8; BYTES],
    twice: [u8; BYTES],
    words: [u32; WORDS],
    others: [u32; WORDS],
}

// The kind up to the escape mark, by the numbers of a stored list.
fn plain(kind: u32) -> u32 {
    match kind {
        12 => 11,
        14 => 13,
        _ => kind,
    }
}

// A token's words are its kind, its start and its end.
fn same_token(a: &[u32; 3], b: &[u32; 3]) -> bool {
    let [kind, start, end] = *a;
    let [other, begins, ends] = *b;
    plain(kind) == plain(other) && start == begins && end == ends
}

fn same_tokens(a: &[u32], b: &[u32]) -> bool {
    let (a, _) = a.as_chunks::<3>();
    let (b, _) = b.as_chunks::<3>();
    a.iter().zip(b).all(|(x, y)| same_token(x, y))
}

// The one place that lists: its callers need not know all that is promised of a listing.
fn listed(s: &[u8], reading: Reading, words: &mut [u32]) -> Result<usize, Stopped> {
    listing::list(s, reading, words)
}

// The one place that outlines.
fn outlined(s: &[u8], reading: Reading, out: &mut [u8]) -> Result<(), Refusal> {
    outline::outline(s, reading, out)
}

impl<const BYTES: usize, const WORDS: usize> Desk<BYTES, WORDS> {
    pub(crate) fn new() -> Self {
        Desk {
            once: [0; BYTES],
            twice: [0; BYTES],
            words: [0; WORDS],
            others: [0; WORDS],
        }
    }

    // Outlining the outline changes nothing. The two buffers were alike before, so they are now, also past the source.
    fn outlines_alike(&mut self, s: &[u8], reading: Reading) -> bool {
        let _ = outlined(s, reading, &mut self.once);
        let _ = outlined(part(&self.once, 0, s.len()), reading, &mut self.twice);
        self.once == self.twice
    }

    // Outline and source list alike, and the later words of the two stores stay alike.
    fn lists_alike(&mut self, s: &[u8], reading: Reading) -> bool {
        let a = listed(s, reading, &mut self.words);
        let b = listed(part(&self.once, 0, s.len()), reading, &mut self.others);
        a == b && same_tokens(&self.words, &self.others)
    }

    // An ill-formed source is refused with 2 at its first bad sequence, and the buffer stays as it was: like the other one.
    fn refuses(&mut self, s: &[u8], reading: Reading, at: usize) -> bool {
        let refused = outlined(s, reading, &mut self.once);
        refused == Err(token::point(Reason::IllFormed, at)) && self.once == self.twice
    }

    pub(crate) fn try_one(&mut self, s: &[u8], reading: Reading) -> Tried {
        let (alike, tried) = match source_test::test_source(s) {
            Ok(()) => (
                self.outlines_alike(s, reading) && self.lists_alike(s, reading),
                Tried::WellFormed,
            ),
            Err(refusal) => (
                self.refuses(s, reading, refusal.span.start),
                Tried::IllFormed,
            ),
        };
        if alike { tried } else { Tried::Different }
    }
}
