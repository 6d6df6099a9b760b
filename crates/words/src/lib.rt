// Words and numbers, from after their first scalar on.
#![tactic(auto)]

mod ident;
mod number;

pub use ident::next_ident;
pub use number::next_number_literal;
