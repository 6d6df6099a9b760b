// The calls of the lookahead buffer. The state is lent, and changed where it stands.
#![tactic(auto)]

mod emit;
pub mod emits;
mod fill;
mod front;
mod list;
pub mod look;
mod quick;
mod ready;
mod rooms;
pub mod show;
mod sound;
pub mod whiles;

pub use look::{Done, Stop};
