// Escapes, and a whole body read into lent bytes: total, and proved equal to the definitions in specs/.
#![tactic(auto)]

mod body;
mod long;

pub use body::unescape;
pub use items::Form;
