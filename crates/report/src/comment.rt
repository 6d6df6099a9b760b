// A comment that ends elsewhere than it seems to: its opening, and where it is closed.
use crate::drawing::Sheet;
use buffer::Page;
use places::{Place, moved};
use token::Kind;

impl Sheet<'_> {
    // Whether the comment runs to the end of the source.
    fn is_open(&self) -> bool {
        let token = self.source.token_at(self.finding.start);
        token.is_some_and(|token| matches!(token.kind, Kind::MultilineComment { closed: false }))
    }

    // Where its close begins, if anything closes it.
    fn close(&self) -> Option<Place> {
        if self.is_open() {
            return None;
        }
        let to = self.finding.to.saturating_sub(2);
        Some(moved(self.source.bytes, self.place, to))
    }

    // Where a comment that runs on is closed, and what stands between.
    fn put_closing(&self, out: &mut Page, close: Place) {
        let f = self.finding;
        self.put_mark(out, close.line, close.at, f.to);
        let named = self.source.as_it_seems().name(f.from, close.at);
        if named.is_bare() {
            self.put_label(
                out,
                b"it closes here; nothing but white space and comments stands between",
            );
            return;
        }
        out.put_bytes(b" it closes here: ");
        named.put_all(out);
        out.put_bytes(b" is not in force");
        self.put_mark_end(out);
    }

    pub(crate) fn put_comment(&self, out: &mut Page) {
        let close = self.close();
        let sheet = self.with_line(close.map_or(self.place.line, |close| close.line));
        let f = self.finding;
        sheet.put_mark(out, self.place.line, f.start, f.from);
        sheet.put_label(
            out,
            b"rune passes over two characters after `/*`, so this `*/` does not close",
        );
        match close {
            None => sheet.put_open_end(out),
            Some(close) => sheet.put_closing(out, close),
        }
        sheet.put_help(out);
    }
}
