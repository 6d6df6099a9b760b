// UTF-8 by RFC 3629, over byte slices: every call is total, writes nothing and equals its definition in specs/.
#![tactic(auto)]

pub mod character;
mod utf8;

pub use utf8::{Scalar, byte_at, in_second, is_tail, scalar_at, second_at, step_of, wide};
