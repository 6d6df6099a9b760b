// The text of a finding: where it is and what, its source lines with marks, and what to do.
use crate::drawing::Sheet;
use crate::finding::{Body, Finding, Matter};
use crate::ink::{put_bold, put_ink, put_reset};
use crate::source::Source;
use buffer::Page;
use places::{Place, moved};
use std::fmt::Write;
use token::Reason;

fn put_place(out: &mut Page, p: Place) {
    let _ = write!(out, "{}:{}", p.line, p.column);
}

// A comment's or a template's opening, else the whole.
fn mark_end(f: Finding) -> usize {
    match f.matter {
        Matter::Unclosed {
            body: Body::Comment,
        } => f.end.min(f.start.saturating_add(2)),
        Matter::Unclosed {
            body: Body::Template,
        } => f.end.min(f.start.saturating_add(1)),
        _ => f.end,
    }
}

fn opening_label(matter: Matter) -> &'static [u8] {
    match matter {
        Matter::Unclosed {
            body: Body::Comment,
        } => b"all from here to the end of the file is comment",
        Matter::Unclosed {
            body: Body::Template,
        } => b"all from here to the end of the file is text of this template",
        _ => b"",
    }
}

impl Sheet<'_> {
    fn put_where(&self, out: &mut Page) {
        put_bold(out, self.ink);
        out.put_bytes(self.source.name);
        out.put(b':');
        put_place(out, self.place);
        put_reset(out, self.ink);
        out.put_bytes(b": ");
    }

    fn put_head(&self, out: &mut Page) {
        let matter = self.finding.matter;
        self.put_where(out);
        put_ink(out, self.ink);
        let _ = write!(out, "{}[", matter.severity());
        wordings::put_name(out, matter.texts());
        out.put(b']');
        put_reset(out, self.ink);
        out.put_bytes(b": ");
        wordings::put_what(out, matter.texts());
        out.put(b'\n');
    }

    fn put_as_code(&self, out: &mut Page) {
        let f = self.finding;
        self.put_mark(out, self.place.line, f.start, f.end);
        self.put_label(out, b"rune reads this as code");
        self.put_note(out, b"it looks like a part of the comment that begins at ");
        put_place(out, moved(self.source.bytes, self.place, f.from));
        out.put(b'\n');
        self.put_help(out);
    }

    // What an over-long source holds is not looked at.
    fn put_plain(&self, out: &mut Page) {
        let f = self.finding;
        let is_read = !matches!(
            f.matter,
            Matter::Refusal {
                reason: Reason::TooLong
            }
        );
        if is_read {
            self.put_mark(out, self.place.line, f.start, mark_end(f));
            self.put_label(out, opening_label(f.matter));
        }
        self.put_help(out);
    }
}

// A finding that stands at a place of a source.
pub fn put_told(out: &mut Page, source: Source, colour: bool, place: Place, finding: Finding) {
    let ink = colour.then_some(finding.matter.severity().ink());
    let sheet = Sheet::new(source, place, finding, ink);
    sheet.put_head(out);
    match finding.matter {
        Matter::RunsOn {
            body: Body::Comment,
            ..
        } => sheet.put_comment(out),
        Matter::RunsOn {
            body: Body::Template,
            ..
        } => sheet.put_template(out),
        Matter::ReadAsCode => sheet.put_as_code(out),
        _ => sheet.put_plain(out),
    }
}
