// What a stretch of a source holds, in short: its first line of anything but white space and comments.
ghost use Rattle.std.specs.Prelude.{◌-◌};
ghost use Rattle.std.specs.Iterator.{at_most};

use crate::drawing::put_shown;
use crate::source::Source;
use buffer::Page;
use places::ahead;
use token::Kind;

const MOST: usize = 40;

// Whether its line goes on and was cut, and whether more than white space and comments follows on later lines.
#[derive(Clone, Copy)]
pub(crate) struct Named<'a> {
    text: &'a [u8],
    cut: bool,
    more: bool,
}

// A token of a stretch; whether it is neither white space nor a comment.
#[derive(Clone, Copy)]
struct Piece {
    from: usize,
    to: usize,
    is_word: bool,
}

// The tokens from one place to before another.
#[derive(Drop)]
struct Pieces<'a> {
    source: Source<'a>,
    at: usize,
    to: usize,
}

fn is_blank(kind: Kind) -> bool {
    matches!(
        kind,
        Kind::Whitespace | Kind::Comment | Kind::MultilineComment { .. }
    )
}

impl Pieces<'_> {
    // What is refused is a word to the stretch's end.
    fn piece_at(&self, from: usize) -> Piece {
        match self.source.token_at(from) {
            None => Piece {
                from,
                to: self.to,
                is_word: true,
            },
            Some(token) => Piece {
                from,
                to: token.span.end,
                is_word: !is_blank(token.kind),
            },
        }
    }
}

impl Iterator for Pieces<'_> {
    type Item = Piece;

    ghost remaining = { λ s. at_most (s.to - s.at) };

    fn next(&mut self) -> Option<Piece> {
        let from = self.at;
        if self.to <= from {
            return None;
        }
        let piece = self.piece_at(from);
        self.at = piece.to.max(from + 1);
        Some(piece)
    }
}

// Where the last word ends that begins on a line, and where the line is over.
#[derive(Clone, Copy)]
struct Line {
    last: usize,
    over: usize,
}

// The last byte is no white space that a token cut short ends with.
fn trimmed(text: &[u8]) -> &[u8] {
    let last = text
        .iter()
        .rposition(|byte| *byte != b' ' && *byte != b'\t');
    &text[..last.map_or(0, |i| i + 1)]
}

impl<'a> Source<'a> {
    fn pieces(&self, from: usize, to: usize) -> Pieces<'a> {
        Pieces {
            source: *self,
            at: from,
            to,
        }
    }

    // The first word of a stretch, or its end.
    fn first_word(&self, from: usize, to: usize) -> usize {
        self.pieces(from, to)
            .find(|piece| piece.is_word)
            .map_or(to, |piece| piece.from)
    }

    fn line(&self, from: usize, to: usize) -> Line {
        let mut line = Line {
            last: from,
            over: to,
        };
        for piece in self.pieces(from, to) {
            if piece.is_word {
                line.last = piece.to;
            }
            if 0 < places::feeds(self.bytes, piece.from, piece.to) {
                line.over = piece.to;
                break;
            }
        }
        line
    }

    // What stands at a place, cut where its line ends or it grows long.
    fn cut_short(&self, from: usize, text: &'a [u8], more: bool) -> Named<'a> {
        let reach = ahead(self.bytes, from, MOST);
        let shown = reach.to.saturating_sub(from);
        if text.len() <= shown {
            return Named {
                text,
                cut: false,
                more,
            };
        }
        let cut = 0 < ahead(self.bytes, reach.to, 1).count;
        Named {
            text: &text[..shown],
            cut,
            more: more || !cut,
        }
    }

    pub(crate) fn name(&self, from: usize, to: usize) -> Named<'a> {
        let first = self.first_word(from, to);
        let line = self.line(first, to);
        let more = self.first_word(line.over, to) < to;
        self.cut_short(first, trimmed(self.part(first, line.last.min(to))), more)
    }
}

impl Named<'_> {
    // Nothing but white space and comments stands there.
    pub(crate) fn is_bare(&self) -> bool {
        self.text.is_empty()
    }

    pub(crate) fn put(&self, out: &mut Page) {
        out.put(b'`');
        put_shown(out, self.text);
        if self.cut {
            out.put_bytes(b" ..");
        }
        out.put(b'`');
    }

    pub(crate) fn put_all(&self, out: &mut Page) {
        self.put(out);
        if self.more {
            out.put_bytes(b" and what follows it");
        }
    }
}
