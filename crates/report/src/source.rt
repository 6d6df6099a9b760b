// What findings are about.
use readers::{Comments, Reading};
use token::Token;

// A file's name, its source, and the reading in force.
#[derive(Clone, Copy)]
pub struct Source<'a> {
    pub name: &'a [u8],
    pub bytes: &'a [u8],
    pub reading: Reading,
}

impl<'a> Source<'a> {
    // In the reading in which a comment ends where it seems to.
    pub(crate) fn as_it_seems(&self) -> Source<'a> {
        Source {
            reading: Reading {
                comments: Comments::First,
            },
            ..*self
        }
    }

    // Nothing where it is refused.
    pub(crate) fn token_at(&self, at: usize) -> Option<Token> {
        lexer::next(self.bytes, self.reading, at).ok()
    }

    pub(crate) fn part(&self, from: usize, to: usize) -> &'a [u8] {
        places::part(self.bytes, from, to)
    }
}
