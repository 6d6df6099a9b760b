// The parser's lookahead buffer over a lent token list: each call changes the lent state where it stands. Unless `tested` is 0 the caller tested
// the list before, by `rows::check_list`, and the state is one that a call left: then neither is tested again.
#![tactic(auto)]

pub use ahead::Ahead;
pub use looks::emits::{advance, array, bump, bump_if, flush_ws};
pub use looks::show::{fill, glued, is_eof, nth, nth_token, peek};
pub use looks::whiles::bump_while;
pub use looks::{Done, Stop};
