// The vocabulary of tokens: kinds with their data, spans, answers, and the reasons of refusals. What a kind's number is stands in `numbers`.
#![tactic(auto)]

mod kind;
mod other;
mod read;
mod reason;

pub use kind::{Bracket, Kind};
pub use other::OtherNumber;
pub use read::{Refusal, Span, Token, got, point, refusal_in, refused};
pub use reason::Reason;
