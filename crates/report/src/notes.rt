// The lines under the marks: notes, and what to do.
use crate::drawing::Sheet;
use buffer::Page;

impl Sheet<'_> {
    pub(crate) fn put_help(&self, out: &mut Page) {
        self.put_edge(out, '=');
        out.put_bytes(b"help: ");
        wordings::put_cure(out, self.finding.matter.texts());
        out.put(b'\n');
    }

    pub(crate) fn put_note(&self, out: &mut Page, note: &[u8]) {
        self.put_edge(out, '=');
        out.put_bytes(b"note: ");
        out.put_bytes(note);
    }

    pub(crate) fn put_open_end(&self, out: &mut Page) {
        let f = self.finding;
        let named = self.source.as_it_seems().name(f.from, f.to);
        if named.is_bare() {
            self.put_note(
                out,
                b"nothing closes it; nothing but white space and comments follows\n",
            );
            return;
        }
        self.put_note(out, b"nothing closes it: ");
        named.put(out);
        out.put_bytes(b" and all that follows is not in force\n");
    }
}
