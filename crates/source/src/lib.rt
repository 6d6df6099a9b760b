// A thin reader that holds the source and a place in it, as the Rust's SourceIter does, over functions on a slice and a number.
#![tactic(auto)]

ghost use Rattle.std.specs.Prelude.{◌≡◌};
ghost use Rattle.source.specs.Reader.{moved_of, new_of, next_scalar_of, peek2_of, peek_of, pos_of};

use text::Scalar;

#[derive(Clone, Copy)]
pub struct Source<'a> {
    src: &'a [u8],
    at: usize,
}

impl<'a> Source<'a> {
    pub fn new(src: &'a [u8]) -> Source<'a>
        ensures { result ≡ new_of src.entry }
    {
        Source { src, at: 0 }
    }

    pub fn pos(&self) -> usize
        ensures { result ≡ pos_of self.now }
    {
        self.at
    }

    pub fn peek(&self) -> Option<Scalar>
        ensures { result ≡ peek_of self.now }
    {
        text::scalar_at(self.src, self.at)
    }

    pub fn peek2(&self) -> Option<Scalar>
        ensures { result ≡ peek2_of self.now }
    {
        text::second_at(self.src, self.at)
    }

    pub fn next(&mut self) -> Option<Scalar>
        ensures { (self.new ≡ moved_of self.old) × (result ≡ next_scalar_of self.old) }
    {
        let Some(Scalar { value, next }) = self.peek() else {
            return None;
        };
        self.at = next;
        Some(Scalar { value, next })
    }
}
