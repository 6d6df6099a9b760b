// How much was found, and how that is said.
use buffer::Page;
use report::Severity;
use std::fmt::Write;
use std::ops::AddAssign;

#[derive(Clone, Copy, Default, Drop)]
pub(crate) struct Tally {
    errors: usize,
    warnings: usize,
    notes: usize,
    unread: usize,
}

impl AddAssign for Tally {
    fn add_assign(&mut self, more: Tally) {
        self.errors = self.errors.saturating_add(more.errors);
        self.warnings = self.warnings.saturating_add(more.warnings);
        self.notes = self.notes.saturating_add(more.notes);
        self.unread = self.unread.saturating_add(more.unread);
    }
}

impl Tally {
    pub(crate) fn count(&mut self, severity: Severity) {
        match severity {
            Severity::Error => self.errors = self.errors.saturating_add(1),
            Severity::Warning => self.warnings = self.warnings.saturating_add(1),
            Severity::Note => self.notes = self.notes.saturating_add(1),
        }
    }

    pub(crate) fn count_unread(&mut self) {
        self.unread = self.unread.saturating_add(1);
    }

    pub(crate) fn is_clean(&self) -> bool {
        self.errors == 0 && self.warnings == 0 && self.notes == 0
    }

    pub(crate) fn all_read(&self) -> bool {
        self.unread == 0
    }

    pub(crate) fn put(&self, out: &mut Page) {
        let counts = [
            (self.errors, "error", "errors"),
            (self.warnings, "warning", "warnings"),
            (self.notes, "note", "notes"),
            (self.unread, "not read", "not read"),
        ];
        let mut mark: &[u8] = b"";
        for (count, one, several) in counts {
            if count != 0 {
                let name = if count == 1 { one } else { several };
                out.put_bytes(mark);
                let _ = write!(out, "{count} {name}");
                mark = b", ";
            }
        }
        if self.is_clean() && self.all_read() {
            out.put_bytes(b"nothing found");
        }
        out.put(b'\n');
    }
}
