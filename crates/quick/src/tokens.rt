// A token told by its bytes: an operator, a word or blanks, all ASCII.
ghost use Rattle.std.specs.Prelude.{ℕ, Bool, ◌+◌, ◌≡◌, drop, length};
ghost use Rattle.quick.specs.Tokens.{ask, begins_word, blank_at, is_blank, other_at, passing, quick_token_at, word_at};
ghost use Rattle.readers.specs.Numbers.{in_number};
ghost use Rattle.readers.specs.Readers.{Tests};

use crate::operator::quick_operator;
use text::byte_at;

// Its kind's number, and where it ends. Number 0: the reader has to be asked. No enum: one with a place goes through memory, and cost
// listing 136 instructions an operator.
#[derive(Clone, Copy)]
pub struct Quick {
    pub number: u32,
    pub end: usize,
}

fn unsure() -> Quick
    ensures { result ≡ ask }
{
    Quick { number: 0, end: 0 }
}

fn is_blank(b: u8) -> bool
    ensures { result ≡ is_blank b }
{
    matches!(b, 9 | 10 | 13 | 32)
}

fn begins_word(b: u8) -> bool
    ensures { result ≡ begins_word b }
{
    matches!(b, 65..=90 | 95 | 97..=122)
}

fn is_word(b: u8) -> bool
    ensures { result ≡ in_number b }
{
    matches!(b, 48..=57 | 65..=90 | 95 | 97..=122)
}

// Where the run of bytes that pass a test ends.
fn run_end<F: Fn(u8) -> bool>(s: &[u8], at: usize, passes: F) -> usize
    requires { F.IsAlwaysCallable passes }
    ensures { (f : ℕ → Bool) → Tests (F.post passes) f → result ≡ at + length (passing f (drop at s.now)) }
{
    for p in at..s.len() {
        if !passes(s[p]) {
            return p;
        }
    }
    at.max(s.len())
}

// From after the first byte of blanks on.
#[tactic(auto, unfolding(crate::specs::Tokens::blank_at))]
fn blank(s: &[u8], at: usize) -> Quick
    ensures { result ≡ blank_at s.now at }
{
    let end = run_end(s, at, is_blank);
    let c = byte_at(s, end);
    if 127 < c || matches!(c, 11 | 12) {
        return unsure();
    }
    Quick { number: 1, end }
}

// From after the first byte of a word, which is a, on.
#[tactic(auto, unfolding(crate::specs::Tokens::word_at))]
fn word(s: &[u8], a: u8, at: usize) -> Quick
    ensures { result ≡ word_at a s.now at }
{
    let end = run_end(s, at, is_word);
    let c = byte_at(s, end);
    if 127 < c || a == b'b' && matches!(c, b'"' | b'\'') {
        return unsure();
    }
    if a == b'_' && end == at {
        return Quick { number: 7, end };
    }
    Quick { number: 6, end }
}

#[tactic(auto, unfolding(crate::specs::Tokens::other_at))]
fn other(s: &[u8], at: usize) -> Quick
    ensures { result ≡ other_at s.now at }
{
    if s.len() <= at {
        return unsure();
    }
    let a = s[at];
    if is_blank(a) {
        return blank(s, at + 1);
    }
    if begins_word(a) {
        return word(s, a, at + 1);
    }
    unsure()
}

#[tactic(auto, unfolding(crate::specs::Tokens::quick_token_at))]
pub fn quick_token(s: &[u8], at: usize) -> Quick
    ensures { result ≡ quick_token_at s.now at }
{
    let q = quick_operator(s, at);
    if q != 0 {
        let end = at + (q % 4) as usize;
        return Quick { number: q / 4, end };
    }
    other(s, at)
}
