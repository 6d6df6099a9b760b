// The scalar at a position, or none at the end and where a sequence is ill-formed. ASCII goes first and short, so that `scalar_at`
// is inlined into every reader; `wide` stays out of line.
ghost use Rattle.std.specs.Prelude.{◌≡◌, get_or};
ghost use Rattle.text.specs.Utf8.{four_of, scalar_at, second_at, second_fits, tail, three_of, two_of};
ghost use Rattle.text.specs.Wide.{step_of, value_of, wide_of};

// A scalar and the place after it.
#[derive(Clone, Copy)]
pub struct Scalar {
    pub value: u32,
    pub next: usize,
}

// The byte at i; past the end 0, which continues nothing.
pub fn byte_at(s: &[u8], i: usize) -> u8
    ensures { result ≡ get_or s.now i 0 }
{
    if i < s.len() { s[i] } else { 0 }
}

#[tactic(auto, unfolding(crate::specs::Utf8::tail, laws::specs::Bools::within))]
pub fn is_tail(b: u8) -> bool
    ensures { result ≡ tail b }
{
    matches!(b, 0x80..=0xbf)
}

#[tactic(auto, unfolding(crate::specs::Utf8::two_of, crate::specs::Utf8::tail, crate::specs::Wide::value_of, laws::specs::Bools::within))]
fn two(a: u8, b: u8) -> Option<u32>
    ensures { result ≡ value_of (two_of a b) }
{
    if !matches!(a, 0xc2..=0xdf) || !is_tail(b) {
        return None;
    }
    Some((a as u32) % 32 * 64 + (b as u32) % 64)
}

#[tactic(auto, unfolding(crate::specs::Utf8::three_of, crate::specs::Utf8::tail, crate::specs::Wide::value_of, laws::specs::Bools::within))]
fn three(a: u8, b: u8, c: u8) -> Option<u32>
    ensures { result ≡ value_of (three_of a b c) }
{
    if !matches!(a, 0xe0..=0xef) || !in_second(a, b) || !is_tail(c) {
        return None;
    }
    Some((a as u32) % 16 * 4096 + (b as u32) % 64 * 64 + (c as u32) % 64)
}

#[tactic(auto, unfolding(crate::specs::Utf8::four_of, crate::specs::Utf8::tail, crate::specs::Wide::value_of, laws::specs::Bools::within))]
fn four(a: u8, b: u8, c: u8, d: u8) -> Option<u32>
    ensures { result ≡ value_of (four_of a b c d) }
{
    if !matches!(a, 0xf0..=0xf4) || !in_second(a, b) || !is_tail(c) || !is_tail(d) {
        return None;
    }
    Some((a as u32) % 8 * 262144 + (b as u32) % 64 * 4096 + (c as u32) % 64 * 64 + (d as u32) % 64)
}

// Whether b may follow the first byte a: a tail byte, and no overlong form, no surrogate, nothing above 10FFFF.
#[tactic(auto, unfolding(crate::specs::Utf8::second_fits, crate::specs::Utf8::low_of, crate::specs::Utf8::high_of, crate::specs::Utf8::tail, laws::specs::Bools::within))]
pub fn in_second(a: u8, b: u8) -> bool
    ensures { result ≡ second_fits a b }
{
    is_tail(b)
        && match a {
            0xe0 => 0xa0 <= b,
            0xed => b <= 0x9f,
            0xf0 => 0x90 <= b,
            0xf4 => b <= 0x8f,
            _ => true,
        }
}

// The scalar of a sequence of two bytes or more, by value in and out.
pub fn wide(a: u8, b: u8, c: u8, d: u8) -> Option<u32>
    ensures { result ≡ wide_of a b c d }
{
    if a <= 0xdf {
        return two(a, b);
    }
    if a <= 0xef {
        return three(a, b, c);
    }
    four(a, b, c, d)
}

// How many bytes a sequence takes, by its first byte from 0x80 on.
pub fn step_of(a: u8) -> usize
    ensures { result ≡ step_of a }
{
    if a <= 0xdf {
        2
    } else if a <= 0xef {
        3
    } else {
        4
    }
}

pub fn scalar_at(s: &[u8], at: usize) -> Option<Scalar>
    ensures { result ≡ scalar_at s.now at }
{
    if s.len() <= at {
        return None;
    }
    let a = s[at];
    if a <= 0x7f {
        return Some(Scalar {
            value: a as u32,
            next: at + 1,
        });
    }
    let value = wide(
        a,
        byte_at(s, at + 1),
        byte_at(s, at + 2),
        byte_at(s, at + 3),
    )?;
    Some(Scalar {
        value,
        next: at + step_of(a),
    })
}

// The scalar after the one at a position.
pub fn second_at(s: &[u8], at: usize) -> Option<Scalar>
    ensures { result ≡ second_at s.now at }
{
    let Some(Scalar { next, .. }) = scalar_at(s, at) else {
        return None;
    };
    scalar_at(s, next)
}
