// Tokens told by their bytes, without the readers: a number and an end where that is certain, and else nothing.
#![tactic(auto)]

mod operator;
mod tokens;

pub use operator::quick_operator;
pub use tokens::{Quick, quick_token};
