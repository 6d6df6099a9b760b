// The tests that come before reading: over-long, ill-formed, no place. The test of UTF-8 goes by blocks of 64 bytes.
#![tactic(auto)]

ghost use Rattle.std.specs.Prelude.{◌+◌, ◌≤◌, ◌<◌, ◌≡◌, get_or, length};
ghost use Rattle.source_test.specs.Blocks.{AtMost, Passed, len_of};
ghost use Rattle.source_test.specs.Source.{boundary, position_test, sound_to, source_test};
ghost use Rattle.text.specs.Utf8.{lead_of};

use text::{byte_at, in_second, is_tail, step_of, wide};
use token::{Reason, Refusal};

// The greatest of the 64 bytes from a place on; the compiler makes vector instructions of this loop.
fn most(s: &[u8], at: usize) -> u8
    requires { at + 64 ≤ length s.now }
    ensures { AtMost s.now at 64 result }
{
    let mut m: u8 = 0;
    for b in &s[at..at + 64] {
        m = m.max(*b);
    }
    m
}

// How many bytes the sequence at a place has, by its first byte a from 0x80 on, reading no more than it must; none: it is ill-formed.
#[tactic(auto, using(crate::proofs::Blocks::len_first, crate::proofs::Blocks::len_second, crate::proofs::Blocks::len_2, crate::proofs::Blocks::len_third, crate::proofs::Blocks::len_3, crate::proofs::Blocks::len_last, crate::proofs::Blocks::len_fourth, crate::proofs::Blocks::len_4))]
fn len_at(s: &[u8], at: usize, a: u8) -> Option<usize>
    requires { (at < length s.now) × (0x7f < a) }
    ensures { result ≡ len_of (lead_of a (get_or s.now (at + 1) 0) (get_or s.now (at + 2) 0) (get_or s.now (at + 3) 0)) }
{
    if a < 0xc2 {
        return None;
    }
    if !in_second(a, byte_at(s, at + 1)) {
        return None;
    }
    if a <= 0xdf {
        return Some(2);
    }
    if !is_tail(byte_at(s, at + 2)) {
        return None;
    }
    if a <= 0xef {
        return Some(3);
    }
    if 0xf4 < a {
        return None;
    }
    if !is_tail(byte_at(s, at + 3)) {
        return None;
    }
    Some(4)
}

// Over the scalars from a place on, to `stop` or the first bad sequence.
fn walk(s: &[u8], at: usize, stop: usize) -> usize
    requires { (at < stop) × (stop ≤ length s.now) }
    ensures { Passed s.now at result }
{
    let mut p = at;
    while p < stop {
        let a = s[p];
        if a <= 0x7f {
            p += 1;
        } else {
            let Some(n) = len_at(s, p, a) else {
                return p;
            };
            p += n;
        }
    }
    p
}

// The same over the last bytes, by `wide`: a second caller keeps it out of line, and so `scalar_at` short enough to be inlined.
fn walk_end(s: &[u8], at: usize) -> usize
    requires { at < length s.now }
    ensures { Passed s.now at result }
{
    let mut p = at;
    while p < s.len() {
        let a = s[p];
        if a <= 0x7f {
            p += 1;
        } else {
            let Some(_) = wide(a, byte_at(s, p + 1), byte_at(s, p + 2), byte_at(s, p + 3)) else {
                return p;
            };
            p += step_of(a);
        }
    }
    p
}

// Over the next block.
#[tactic(auto, using(crate::proofs::Blocks::passed_run))]
fn pass(s: &[u8], at: usize) -> usize
    requires { at < length s.now }
    ensures { Passed s.now at result }
{
    if s.len() - at < 64 {
        return walk_end(s, at);
    }
    if most(s, at) <= 0x7f {
        return at + 64;
    }
    walk(s, at, at + 64)
}

// Where the longest well-formed prefix ends.
fn sound_to(s: &[u8]) -> usize
    ensures { result ≡ sound_to s.now }
{
    let mut at = 0;
    while at < s.len() {
        let p = pass(s, at);
        if p == at {
            return at;
        }
        at = p;
    }
    at
}

#[tactic(auto, unfolding(crate::specs::Source::source_test))]
pub fn test_source(s: &[u8]) -> Result<(), Refusal>
    ensures { result ≡ source_test s.now }
{
    if 65536 < s.len() {
        return Err(token::point(Reason::TooLong, 0));
    }
    let at = sound_to(s);
    if at == s.len() {
        return Ok(());
    }
    Err(token::point(Reason::IllFormed, at))
}

// Whether a position lies at a scalar or at the end, in a source that is well-formed.
#[tactic(auto, unfolding(crate::specs::Source::boundary))]
pub fn is_boundary(s: &[u8], at: usize) -> bool
    ensures { result ≡ boundary s.now at }
{
    at <= s.len() && !is_tail(byte_at(s, at))
}

#[tactic(auto, using(crate::proofs::Places::position_other))]
pub fn test_position(s: &[u8], at: usize) -> Result<(), Refusal>
    ensures { result ≡ position_test s.now at }
{
    test_source(s)?;
    if is_boundary(s, at) {
        return Ok(());
    }
    Err(token::point(Reason::NoPlace, at))
}
