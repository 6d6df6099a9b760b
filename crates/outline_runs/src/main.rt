// Demand 3 run beside its proof: random sources over tricky characters, and damaged copies of the rule files on standard input, are
// outlined twice and listed, and what the theorems say is tested on each.
#![tactic(auto)]

mod desk;
mod sources;

use desk::{Desk, Tried};
use places::part;
use readers::{Comments, Reading};
use sources::{Seed, Source};
use std::fmt;
use std::io::Stdout;

#[derive(Default, Drop)]
struct Counts {
    well_formed: u64,
    different: u64,
}

impl Counts {
    fn count(&mut self, tried: Tried) {
        match tried {
            Tried::WellFormed => self.well_formed = self.well_formed.saturating_add(1),
            Tried::IllFormed => {}
            Tried::Different => self.different = self.different.saturating_add(1),
        }
    }
}

impl fmt::Display for Counts {
    fn fmt<W: fmt::Write>(&self, f: &mut fmt::Formatter<W>) -> fmt::Result {
        let well_formed = self.well_formed;
        let different = self.different;
        write!(f, "well-formed {well_formed}\ndifferent {different}")
    }
}

// The two readings in turn.
fn reading_of(turn: u64) -> Reading {
    let comments = if turn % 2 == 0 {
        Comments::Crate
    } else {
        Comments::First
    };
    Reading { comments }
}

// So many sources, made of the file or of nothing.
fn try_all<const BYTES: usize, const WORDS: usize>(
    file: &[u8],
    turns: u64,
    desk: &mut Desk<BYTES, WORDS>,
) -> Counts {
    let mut source = Source::empty();
    let mut seed = Seed(1);
    let mut counts = Counts::default();
    for turn in 0..turns {
        source.become_next(file, &mut seed, turn);
        counts.count(desk.try_one(source.text(), reading_of(turn)));
    }
    counts
}

fn try_random(to: Stdout) {
    let _ = println!(to; "sources 300000");
    let counts = try_all(b"", 300000, &mut Desk::<64, 192>::new());
    let _ = println!(to; "{counts}");
}

fn try_damaged(to: Stdout, file: &[u8]) {
    if file.is_empty() {
        return;
    }
    let _ = println!(to; "damaged 40000");
    let counts = try_all(file, 40000, &mut Desk::<4096, 6144>::new());
    let _ = println!(to; "{counts}");
}

fn main(rt: HostRuntime) {
    let to = rt.stdout();
    try_random(to);
    let mut file = [0u8; 4096];
    let got = buffer::read_full(&mut rt.stdin(), &mut file);
    try_damaged(to, &file[..got]);
}
