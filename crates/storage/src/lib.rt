// The stored token list: the writer and the reader.
#![tactic(auto)]

mod reader;
mod writer;

pub use reader::read;
pub use writer::write;

// How many bytes a stored record takes: the mark 54 4B, the kind's number in one, the start and the end in four each.
const RECORD: usize = 11;

const MARK_FIRST: u8 = 0x54;

const MARK_SECOND: u8 = 0x4b;
