// Fast ways through a body: runs of bytes that stand for themselves, and escapes of two bytes by value. Proved equal to the definitions in specs/.
#![tactic(auto)]

ghost use Rattle.std.specs.Prelude.{◌+◌, ◌≡◌, drop, length};
ghost use Rattle.runs.specs.Runs.{ascii_of, bare_of, begins_of, escaped_at, limit_of, plain_end, short_of};
ghost use Rattle.text.specs.Utf8.{rest};

use escapes::Escape;
use items::{Form, item_at};
use text::{Scalar, byte_at};

// The place of the first backslash, or the end. One test a loop: with two in one loop the code is longer than that of two loops.
fn bare_end(s: &[u8], at: usize) -> usize
    ensures { result ≡ at + length (bare_of (drop at s.now)) }
{
    for p in at..s.len() {
        if s[p] == b'\\' {
            return p;
        }
    }
    at.max(s.len())
}

// The place of the first byte above 0x7f before a backslash or the end, which is at `end`.
#[tactic(auto, using(crate::proofs::Runs::high_none))]
fn low_end(s: &[u8], at: usize, end: usize) -> usize
    requires { end ≡ at + length (bare_of (drop at s.now)) }
    ensures { result ≡ at + length (ascii_of (bare_of (drop at s.now))) }
{
    for p in at..end {
        if 0x7f < s[p] {
            return p;
        }
    }
    end
}

// Where the bytes end that stand for themselves.
pub fn run_end(s: &[u8], at: usize, bytes: bool) -> usize
    ensures { result ≡ at + length (plain_end bytes (drop at s.now)) }
{
    let end = bare_end(s, at);
    if bytes {
        return low_end(s, at, end);
    }
    end
}

// The byte after the backslash at a place; 0: there is no backslash, or nothing after it. A number and no Option, here and below: these answer in a
// register (docs/SPEED.md).
#[tactic(auto, using(crate::proofs::Shorts::escaped_end, crate::proofs::Shorts::escaped_here, crate::proofs::Shorts::escaped_other))]
pub fn escaped_at(s: &[u8], at: usize) -> u8
    ensures { result ≡ escaped_at s.now at }
{
    if s.len() <= at {
        return 0;
    }
    if s[at] != b'\\' {
        return 0;
    }
    byte_at(s, at + 1)
}

// One more than what a byte after a backslash stands for, and 0x80 more again where only templates have it; 0xff: the escape is none of two bytes.
// Constants only, and none its own key, so that the compiler makes a table of them.
pub fn short_escape(v: u8) -> u8
    ensures { result ≡ short_of v }
{
    match v {
        0x27 => 0x28,
        0x22 => 0x23,
        0x6e => 0x0b,
        0x72 => 0x0e,
        0x74 => 0x0a,
        0x5c => 0x5d,
        0x30 => 0x01,
        0x24 => 0xa5,
        0x60 => 0xe1,
        _ => 0xff,
    }
}

// What `short_escape` answers below this is an escape.
pub fn short_limit(template: bool) -> u8
    ensures { result ≡ limit_of template }
{
    if template { 0xff } else { 0x80 }
}

// What begins at a place.
pub fn begin_at(s: &[u8], at: usize, form: Form) -> Escape
    ensures { result ≡ begins_of form (rest s.now at) at }
{
    let Some(Scalar { value, next }) = text::scalar_at(s, at) else {
        return Escape::Skipped { next: at };
    };
    item_at(s, form, value, next)
}
