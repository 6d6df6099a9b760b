// An operator told by its bytes as one number: four times its kind's number and its length; 0 where the reader has to be asked.
// A number and no enum, for the reason beside `Quick`.
ghost use Rattle.std.specs.Prelude.{◌≡◌, eqb, get_or};
ghost use Rattle.laws.specs.Bools.{pick};
ghost use Rattle.quick.specs.Operators.{quick_at, quick_of};

use text::byte_at;

fn one_or(s: &[u8], i: usize, b: u8, two: u32, one: u32) -> u32
    ensures { result ≡ pick (eqb (get_or s.now i 0) b) two one }
{
    if byte_at(s, i) == b { two } else { one }
}

fn two_or(s: &[u8], i: usize, b: u8, two: u32, c: u8, other: u32, one: u32) -> u32
    ensures { result ≡ pick (eqb (get_or s.now i 0) b) two (pick (eqb (get_or s.now i 0) c) other one) }
{
    if byte_at(s, i) == b {
        two
    } else {
        one_or(s, i, c, other, one)
    }
}

// The first byte is a, and the next ones stand at i and j.
#[tactic(auto, unfolding(crate::specs::Operators::quick_of, crate::specs::Operators::operator_by, operators::specs::Operators::look_one, operators::specs::Operators::look_two, operators::specs::Operators::look_three, operators::specs::Operators::ones, operators::specs::Operators::twos, operators::specs::Operators::threes, numbers::specs::Kinds::number_of))]
fn quick_of(s: &[u8], a: u8, i: usize, j: usize) -> u32
    ensures { result ≡ quick_of a (get_or s.now i 0) (get_or s.now j 0) }
{
    match a {
        33 => one_or(s, i, 61, 178, 69),
        36 => 77,
        37 => one_or(s, i, 61, 182, 81),
        38 => two_or(s, i, 38, 186, 61, 190, 85),
        40 => 89,
        41 => 93,
        42 => one_or(s, i, 61, 194, 97),
        43 => one_or(s, i, 61, 198, 101),
        44 => 105,
        45 => two_or(s, i, 61, 202, 62, 206, 109),
        46 => {
            if byte_at(s, i) == 46 {
                one_or(s, j, 61, 259, 210)
            } else {
                113
            }
        }
        58 => one_or(s, i, 58, 218, 121),
        59 => 125,
        60 => {
            if byte_at(s, i) == 60 {
                one_or(s, j, 61, 263, 222)
            } else {
                one_or(s, i, 61, 226, 129)
            }
        }
        61 => two_or(s, i, 61, 230, 62, 234, 133),
        62 => {
            if byte_at(s, i) == 62 {
                one_or(s, j, 61, 267, 242)
            } else {
                one_or(s, i, 61, 238, 137)
            }
        }
        63 => 141,
        64 => 145,
        91 => 149,
        93 => 153,
        94 => one_or(s, i, 61, 246, 157),
        123 => 161,
        124 => two_or(s, i, 61, 250, 124, 254, 165),
        125 => 169,
        126 => 173,
        _ => 0,
    }
}

#[tactic(auto, unfolding(crate::specs::Operators::quick_at))]
pub fn quick_operator(s: &[u8], at: usize) -> u32
    ensures { result ≡ quick_at s.now at }
{
    if s.len() <= at {
        return 0;
    }
    quick_of(s, s[at], at + 1, at + 2)
}
