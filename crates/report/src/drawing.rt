// A source line, and under it a mark. A tab stays a tab in both, so that the mark stands under what it marks.
use crate::finding::Finding;
use crate::ink::{Ink, put_ink, put_reset};
use crate::scalars::Scalars;
use crate::source::Source;
use buffer::Page;
use places::{Place, Window};
use std::fmt::Write;

// A finding on its way out: where it stands, the ink of its marks, and how many digits the largest line number has that it shows.
#[derive(Clone, Copy)]
pub(crate) struct Sheet<'a> {
    pub source: Source<'a>,
    pub place: Place,
    pub finding: Finding,
    pub ink: Option<Ink>,
    pub width: usize,
}

// What cannot be seen: controls but the tab, and the byte order mark.
fn is_hidden(value: u32) -> bool {
    match value {
        9 => false,
        0xFEFF => true,
        _ => classes::is_control(value),
    }
}

fn is_shown(scalar: &[u8]) -> bool {
    text::scalar_at(scalar, 0).is_some_and(|scalar| !is_hidden(scalar.value))
}

pub(crate) fn put_shown(out: &mut Page, bytes: &[u8]) {
    for scalar in Scalars(bytes) {
        if is_shown(scalar) {
            out.put_bytes(scalar);
        } else {
            out.put_bytes(b"\xef\xbf\xbd");
        }
    }
}

// A sign under each scalar.
fn put_under(out: &mut Page, bytes: &[u8], sign: u8) {
    for scalar in Scalars(bytes) {
        match scalar {
            b"\t" => out.put(b'\t'),
            _ => out.put(sign),
        }
    }
}

// One caret at least, also under nothing.
fn put_carets(out: &mut Page, bytes: &[u8]) {
    out.put(b'^');
    let mut scalars = Scalars(bytes);
    let _ = scalars.next();
    put_under(out, scalars.0, b'^');
}

pub fn put_if(out: &mut Page, asked: bool, bytes: &[u8]) {
    if asked {
        out.put_bytes(bytes);
    }
}

// How many digits a line number has.
fn width_of(line: usize) -> usize {
    line.checked_ilog10().map_or(1, |log| log as usize + 1)
}

impl<'a> Sheet<'a> {
    pub(crate) fn new(
        source: Source<'a>,
        place: Place,
        finding: Finding,
        ink: Option<Ink>,
    ) -> Self {
        Sheet {
            source,
            place,
            finding,
            ink,
            width: width_of(place.line),
        }
    }

    // Where a later line is the last that it shows.
    pub(crate) fn with_line(&self, line: usize) -> Self {
        Sheet {
            width: width_of(line),
            ..*self
        }
    }

    // What stands before a line that is no source line.
    pub(crate) fn put_edge(&self, out: &mut Page, sign: char) {
        let width = self.width;
        let _ = write!(out, "{:width$}   {sign} ", "");
    }

    fn put_source(&self, out: &mut Page, line: usize, w: Window) {
        let width = self.width;
        let _ = write!(out, "  {line:width$} | ");
        put_if(out, w.left, b"..");
        put_shown(out, self.source.part(w.from, w.to));
        put_if(out, w.right, b"..");
        out.put(b'\n');
    }

    // The line that a place stands on, and carets from there to before another place, as far as the line is shown. The ink stays on for what is said.
    pub(crate) fn put_mark(&self, out: &mut Page, line: usize, from: usize, to: usize) {
        let w = places::around(self.source.bytes, from);
        self.put_source(out, line, w);
        self.put_edge(out, '|');
        put_if(out, w.left, b"  ");
        put_under(out, self.source.part(w.from, from), b' ');
        put_ink(out, self.ink);
        put_carets(out, self.source.part(from, to.min(w.to)));
    }

    pub(crate) fn put_mark_end(&self, out: &mut Page) {
        put_reset(out, self.ink);
        out.put(b'\n');
    }

    // What a mark says.
    pub(crate) fn put_label(&self, out: &mut Page, label: &[u8]) {
        put_if(out, !label.is_empty(), b" ");
        out.put_bytes(label);
        self.put_mark_end(out);
    }
}
