// What a source has that its writer would want to know, five words each (code, start, end, and the stretch from, to), in a lent store; later
// words keep their content. Equal to specs/, on every source, reading and store.
#![tactic(auto)]

mod code;
mod store;
mod walk;

pub use code::{Code, UnknownCode};
pub use walk::findings;
