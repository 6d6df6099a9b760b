// White space, lines, comments and what a backslash takes along, each total on every slice and place. The rule of every reader of document 01 stands in specs/.
#![tactic(auto)]

mod comments;
mod escape;
mod number;
mod reading;
#[cfg(test)]
mod tests;

pub use comments::{
    Test, consume_line, consume_whitespace, next_multiline_comment, run_end, run_end_by,
};
pub use escape::escaped_end;
pub use number::Part;
pub use reading::{Comments, Reading};
