// The classes of document 01. ASCII is settled by comparisons alone; what is left is looked up in a table of ranges.
#![tactic(auto)]

mod digits;

ghost use Rattle.std.specs.Prelude.{◌≡◌};
ghost use Rattle.classes.specs.Ascii.{ascii_continue, ascii_start, ascii_white, in_pairs};
ghost use Rattle.classes.specs.Classes.{is_control, is_white_space, is_xid_continue, is_xid_start};
ghost use Rattle.laws.specs.Bools.{within};

pub use digits::{hex_value, is_ascii_digit, is_ascii_hexdigit};

const WHITE_SPACE: [(u32, u32); 11] = [
    (0x0009, 0x000d),
    (0x0020, 0x0020),
    (0x0085, 0x0085),
    (0x00a0, 0x00a0),
    (0x1680, 0x1680),
    (0x2000, 0x200a),
    (0x2028, 0x2028),
    (0x2029, 0x2029),
    (0x202f, 0x202f),
    (0x205f, 0x205f),
    (0x3000, 0x3000),
];

const XID_START: [(u32, u32); 8] = [
    (0x0041, 0x005a),
    (0x0061, 0x007a),
    (0x00aa, 0x00aa),
    (0x00b5, 0x00b5),
    (0x00ba, 0x00ba),
    (0x00c0, 0x00d6),
    (0x00d8, 0x00f6),
    (0x00f8, 0x024f),
];

const XID_CONTINUE: [(u32, u32); 11] = [
    (0x0030, 0x0039),
    (0x0041, 0x005a),
    (0x005f, 0x005f),
    (0x0061, 0x007a),
    (0x00aa, 0x00aa),
    (0x00b5, 0x00b5),
    (0x00b7, 0x00b7),
    (0x00ba, 0x00ba),
    (0x00c0, 0x00d6),
    (0x00d8, 0x00f6),
    (0x00f8, 0x024f),
];

fn holds(range: (u32, u32), v: u32) -> bool
    ensures { result ≡ within range.0 range.1 v }
{
    range.0 <= v && v <= range.1
}

// Whether one of the ranges, each by its first member and its last, holds v.
#[tactic(auto, unfolding(crate::specs::Ascii::in_pairs))]
fn in_ranges(t: &[(u32, u32)], v: u32) -> bool
    ensures { result ≡ in_pairs t.now v }
{
    t.iter().any(|range| holds(*range, v))
}

fn ascii_white(v: u32) -> bool
    ensures { result ≡ ascii_white v }
{
    matches!(v, 0x20 | 0x09..=0x0d)
}

#[tactic(auto, using(crate::proofs::Ascii::white_ascii))]
pub fn is_whitespace(v: u32) -> bool
    ensures { result ≡ is_white_space v }
{
    if v < 0x80 {
        return ascii_white(v);
    }
    in_ranges(&WHITE_SPACE, v)
}

pub fn is_control(v: u32) -> bool
    ensures { result ≡ is_control v }
{
    matches!(v, 0x00..=0x1f | 0x7f..=0x9f)
}

// Small letters come first here and below: most of a text is made of them.
fn ascii_start(v: u32) -> bool
    ensures { result ≡ ascii_start v }
{
    matches!(v, 0x61..=0x7a | 0x41..=0x5a)
}

#[tactic(auto, using(crate::proofs::Ascii::start_ascii))]
pub fn is_xid_start(v: u32) -> bool
    ensures { result ≡ is_xid_start v }
{
    if v < 0x80 {
        return ascii_start(v);
    }
    in_ranges(&XID_START, v)
}

fn ascii_continue(v: u32) -> bool
    ensures { result ≡ ascii_continue v }
{
    matches!(v, 0x61..=0x7a | 0x41..=0x5a | 0x5f | 0x30..=0x39)
}

#[tactic(auto, using(crate::proofs::Ascii::continue_ascii))]
pub fn is_xid_continue(v: u32) -> bool
    ensures { result ≡ is_xid_continue v }
{
    if v < 0x80 {
        return ascii_continue(v);
    }
    in_ranges(&XID_CONTINUE, v)
}
