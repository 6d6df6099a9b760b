// Where a place of a source stands for a person: its line, its column in scalars, and as much of its line as is shown.
// Lines, columns and parts equal specs/, on every slice; how a long line is cut no contract says: runs show it.
#![tactic(auto)]

mod line;
mod window;

pub use line::{Place, after, feeds, line_start, moved, origin, part, scalars};
pub use window::{Window, ahead, around, back};
