// What the caller names of how a source is read, in every call that reads one.

// Where a comment ends: at the first close after two scalars that are passed over, as in rune, or at the first close.
#[derive(Clone, Copy, PartialEq, Eq)]
pub enum Comments {
    Crate,
    First,
}

#[derive(Clone, Copy, PartialEq, Eq)]
pub struct Reading {
    pub comments: Comments,
}
