// A template that ends elsewhere than it seems to: its two ends.
use crate::drawing::Sheet;
use crate::stretch::Named;
use buffer::Page;
use places::{Place, moved};

impl Sheet<'_> {
    // The place of the last scalar before a place.
    fn last_before(&self, to: usize) -> Place {
        let s = self.source.bytes;
        moved(s, self.place, places::back(s, to, 1))
    }

    // Whether a backtick stands before the later end.
    fn is_closed(&self) -> bool {
        self.source.part(0, self.finding.to).ends_with(b"`")
    }

    // Whether the later end is the one in force.
    fn is_later(&self) -> bool {
        self.finding.to == self.finding.end
    }

    // One of the two ends of a template: the one in force, or the one that it seems to have.
    fn put_end(&self, out: &mut Page, p: Place, to: usize, in_force: bool) {
        self.put_mark(out, p.line, p.at, to);
        if in_force {
            self.put_label(out, b"rune ends it here");
        } else {
            self.put_label(out, b"it seems to end here");
        }
    }

    // From its start to the first of its two ends.
    fn put_opening(&self, out: &mut Page) {
        let f = self.finding;
        let sooner = f.from == f.end;
        if places::feeds(self.source.bytes, f.start, f.from) == 0 {
            self.put_end(out, self.place, f.from, sooner);
            return;
        }
        self.put_mark(out, self.place.line, f.start, f.from);
        self.put_label(out, b"it begins here");
        self.put_end(out, self.last_before(f.from), f.from, sooner);
    }

    // What stands between two ends of a template: under the reading in which it is no text of the template.
    fn between(&self) -> Named<'_> {
        let f = self.finding;
        let to = if self.is_closed() {
            f.to.saturating_sub(1)
        } else {
            f.to
        };
        if self.is_later() {
            return self.source.as_it_seems().name(f.from, to);
        }
        self.source.name(f.from, to)
    }

    fn put_between(&self, out: &mut Page) {
        let named = self.between();
        if named.is_bare() {
            self.put_note(
                out,
                b"nothing but white space and comments stands between\n",
            );
            return;
        }
        self.put_note(out, b"");
        named.put_all(out);
        if self.is_later() {
            out.put_bytes(b" is not in force\n");
        } else {
            out.put_bytes(b" is in force\n");
        }
    }

    // The later end, and what stands before it. Where no backtick closes the template there is no end to mark.
    fn put_far(&self, out: &mut Page, far: Place) {
        let in_force = self.is_later();
        if self.is_closed() {
            self.put_end(out, far, self.finding.to, in_force);
            self.put_between(out);
        } else if in_force {
            self.put_open_end(out);
        } else {
            self.put_between(out);
        }
    }

    // Where the last mark of a template stands.
    fn far(&self) -> Place {
        if self.is_closed() {
            return self.last_before(self.finding.to);
        }
        self.last_before(self.finding.from)
    }

    pub(crate) fn put_template(&self, out: &mut Page) {
        let far = self.far();
        let sheet = self.with_line(far.line);
        sheet.put_opening(out);
        sheet.put_far(out, far);
        sheet.put_help(out);
    }
}
