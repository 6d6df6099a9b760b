// The escapes \x and \u by value, in one number. They only save time: 0 says nothing, and then `begin_at` is asked.
// With an answer through memory escapes cost 1.8 of the Rust's instructions, and so at most 0.97 (docs/SPEED.md).
ghost use Rattle.std.specs.Prelude.{◌+◌, ◌/◌, ◌≤◌};
ghost use Rattle.escapes.specs.Escapes.{hex_of, unicode_of};
ghost use Rattle.runs.specs.Runs.{begins_of};
ghost use Rattle.text.specs.Utf8.{rest};
ghost use Rattle.unescape.specs.Longs.{Closed, Packed};

use classes::hex_value;
use items::Form;
use runs::escaped_at;

// The escape at a place as \x with two hex digits that stand for no more than `most`, in one number; 0: it is none.
fn hex_at(s: &[u8], at: usize, most: u32) -> u32
    ensures { Packed at (hex_of (rest s.now (at + 2)) (at + 2)) result × (result / 16 ≤ most) }
{
    if s.len() <= at {
        return 0;
    }
    if s.len() - at < 4 {
        return 0;
    }
    let Some(a) = hex_value(u32::from(s[at + 2])) else {
        return 0;
    };
    let Some(b) = hex_value(u32::from(s[at + 3])) else {
        return 0;
    };
    let x = a * 16 + b;
    if most < x {
        return 0;
    }
    x * 16 + 4
}

// The escape at a place as \u with a scalar in braces, in one number; 0: it is none, or takes more than 15 bytes.
fn unicode_at(s: &[u8], at: usize) -> u32
    ensures { Packed at (unicode_of (rest s.now (at + 2)) (at + 2)) result }
{
    if s.len() <= at {
        return 0;
    }
    let left = s.len() - at;
    if left < 3 {
        return 0;
    }
    if s[at + 2] != 0x7b {
        return 0;
    }
    let mut x: Option<u32> = None;
    for i in 3..left {
        let v = s[at + i];
        if v == 0x7d {
            return unicode_closed(x, i);
        }
        let Some(d) = hex_value(u32::from(v)) else {
            return 0;
        };
        let before = x.unwrap_or(0);
        if 0xfffff < before {
            return 0;
        }
        x = Some(before * 16 + d);
    }
    0
}

// The number x after its digits, if there was one; the brace is i bytes after the backslash.
fn unicode_closed(x: Option<u32>, i: usize) -> u32
    ensures { Closed x i result }
{
    match x {
        Some(x) if i <= 14 && encoding::is_scalar(x) => x * 16 + (i as u32) + 1,
        _ => 0,
    }
}

// What \x or \u at a place gives, in one number; 0: it is neither of them, or a fault. By value: `begin_at` answers through memory.
pub(crate) fn long_at(s: &[u8], at: usize, form: Form) -> u32
    ensures { Packed at (begins_of form (rest s.now at) at) result }
{
    let v = escaped_at(s, at);
    if form.is_bytes() {
        if v == 0x78 {
            return hex_at(s, at, 0xff);
        }
        return 0;
    }
    if v == 0x78 {
        return hex_at(s, at, 0x7f);
    }
    if v == 0x75 {
        return unicode_at(s, at);
    }
    0
}
