// Findings and refusals for a person to read, or for a script: the text of each with its source lines, or one JSON object.
// Every function here is safe and ends. What reaches standard output no contract can say: runs show it.
#![tactic(auto)]

mod comment;
mod drawing;
mod finding;
mod ink;
mod json;
mod notes;
mod scalars;
mod source;
mod stretch;
mod template;
mod told;

pub use drawing::put_if;
pub use finding::{Body, Finding, Matter, Severity};
pub use json::put_json;
pub use source::Source;
pub use told::put_told;
