// A scalar as UTF-8 by RFC 3629: 1 to 4 bytes, none for a number that is no scalar. Proved to undo decoding and to be undone by it.
#![tactic(auto)]

ghost use Rattle.std.specs.Prelude.{◌≡◌};
ghost use Rattle.encoding.specs.Encode.{encoded_of, is_scalar, tail_of};

// The bytes of a scalar: `len` of the four, the others 0. No bytes for a number that is no scalar. An array with its length: that the others are 0 is
// promised (`encoded_of`), and `unescape::put` writes from it without a loop.
#[derive(Clone, Copy)]
pub struct Encoded {
    pub len: usize,
    pub bytes: [u8; 4],
}

pub fn is_scalar(v: u32) -> bool
    ensures { result ≡ is_scalar v }
{
    matches!(v, 0..=0xd7ff | 0xe000..=0x10ffff)
}

// A tail byte: the six low bits of v.
fn tail_byte(v: u32) -> u8
    ensures { result ≡ tail_of v }
{
    (0x80 + v % 64) as u8
}

#[tactic(auto, using(crate::proofs::Rows::encoded_1, crate::proofs::Rows::encoded_2, crate::proofs::Rows::encoded_3, crate::proofs::Rows::encoded_4, crate::proofs::Rows::encoded_none, crate::proofs::Rows::scalar_most))]
pub fn encode(v: u32) -> Encoded
    ensures { result ≡ encoded_of v }
{
    match v {
        0..=0x7f => Encoded {
            len: 1,
            bytes: [v as u8, 0, 0, 0],
        },
        0x80..=0x7ff => Encoded {
            len: 2,
            bytes: [(0xc0 + v / 64) as u8, tail_byte(v), 0, 0],
        },
        _ if !is_scalar(v) => Encoded {
            len: 0,
            bytes: [0; 4],
        },
        0x800..=0xffff => Encoded {
            len: 3,
            bytes: [(0xe0 + v / 4096) as u8, tail_byte(v / 64), tail_byte(v), 0],
        },
        _ => Encoded {
            len: 4,
            bytes: [
                (0xf0 + v / 262144) as u8,
                tail_byte(v / 4096),
                tail_byte(v / 64),
                tail_byte(v),
            ],
        },
    }
}
