// The findings of a source, five words each, told one by one.
use crate::asked::{Layout, Settings};
use crate::tally::Tally;
use buffer::Page;
use findings::Code;
use places::{Place, moved};
use report::{Body, Finding, Matter, Source};
use token::{Reason, Refusal};

#[derive(Clone, Copy, Drop)]
struct Record {
    code: u32,
    start: usize,
    end: usize,
    from: usize,
    to: usize,
}

impl From<[u32; 5]> for Record {
    fn from(words: [u32; 5]) -> Record {
        let [code, start, end, from, to] = words;
        Record {
            code,
            start: start as usize,
            end: end as usize,
            from: from as usize,
            to: to as usize,
        }
    }
}

impl Record {
    fn is(&self, code: Code) -> bool {
        self.code == u32::from(code)
    }

    fn matter(&self, s: &[u8]) -> Option<Matter> {
        let body = match text::byte_at(s, self.start) {
            b'`' => Body::Template,
            _ => Body::Comment,
        };
        Some(match Code::try_from(self.code).ok()? {
            Code::RunsOn => Matter::RunsOn { body, bare: false },
            Code::RunsOnBlank => Matter::RunsOn { body, bare: true },
            Code::ReadAsCode => Matter::ReadAsCode,
            Code::CommentUnclosed => Matter::Unclosed {
                body: Body::Comment,
            },
            Code::TemplateUnclosed => Matter::Unclosed {
                body: Body::Template,
            },
            Code::ByteOrderMark => Matter::ByteOrderMark,
        })
    }

    // It and those after it up to the last, as one finding.
    fn finding(&self, s: &[u8], last: Record) -> Option<Finding> {
        Some(Finding {
            matter: self.matter(s)?,
            start: self.start,
            end: last.end,
            from: self.from,
            to: self.to,
        })
    }

    // An unclosed comment that was told by the record before, as one that runs on.
    fn is_told_by(&self, before: Option<Record>) -> bool {
        self.is(Code::CommentUnclosed) && before.is_some_and(|before| before.start == self.start)
    }
}

// What is read as code in one comment is told as one.
fn are_one(a: Record, b: Record) -> bool {
    a.is(Code::ReadAsCode) && b.is(Code::ReadAsCode) && a.from == b.from
}

fn finding_of_refusal(refusal: Refusal) -> Finding {
    let end = refusal.span.end;
    Finding {
        matter: Matter::Refusal {
            reason: refusal.reason,
        },
        start: refusal.span.start,
        end,
        from: end,
        to: end,
    }
}

// The byte order mark was told, and it is the character that is refused.
fn is_marked(records: &[[u32; 5]], refusal: Refusal) -> bool {
    let Some(first) = records.first() else {
        return false;
    };
    let first = Record::from(*first);
    refusal.reason == Reason::UnexpectedChar
        && refusal.span.start == 0
        && first.is(Code::ByteOrderMark)
}

// A source whose findings are told: how many were, and the place of the last: lines are counted from there on.
#[derive(Drop)]
pub(crate) struct Telling<'a> {
    source: Source<'a>,
    settings: Settings,
    pub tally: Tally,
    place: Place,
}

impl<'a> Telling<'a> {
    pub(crate) fn new(source: Source<'a>, settings: Settings) -> Self {
        Telling {
            source,
            settings,
            tally: Tally::default(),
            place: places::origin(),
        }
    }

    fn put(&mut self, out: &mut Page, f: Finding) {
        let place = moved(self.source.bytes, self.place, f.start);
        match self.settings.layout {
            Layout::Text => report::put_told(out, self.source, self.settings.colour, place, f),
            Layout::Json => report::put_json(out, self.source, place, f),
            Layout::Quiet => {}
        }
        self.tally.count(f.matter.severity());
        self.place = place;
    }

    pub(crate) fn put_records(&mut self, out: &mut Page, records: &[[u32; 5]]) {
        let joins = self.settings.layout != Layout::Json;
        let mut before: Option<Record> = None;
        for group in records.chunk_by(|a, b| joins && are_one(Record::from(*a), Record::from(*b))) {
            let (Some(first), Some(last)) = (group.first(), group.last()) else {
                continue;
            };
            let first = Record::from(*first);
            let last = Record::from(*last);
            if !(joins && first.is_told_by(before)) {
                // Each code is a finding's: what is none is passed over.
                if let Some(f) = first.finding(self.source.bytes, last) {
                    self.put(out, f);
                }
            }
            before = Some(last);
        }
    }

    fn put_too_many(&self, out: &mut Page, f: Finding) {
        match self.settings.layout {
            Layout::Text => {
                out.put_bytes(self.source.name);
                out.put_bytes(b": more than 1000 findings: mend these first\n");
            }
            Layout::Json => {
                let place = moved(self.source.bytes, self.place, f.start);
                report::put_json(out, self.source, place, f);
            }
            Layout::Quiet => {}
        }
    }

    pub(crate) fn put_refusal(&mut self, out: &mut Page, records: &[[u32; 5]], refusal: Refusal) {
        let f = finding_of_refusal(refusal);
        if refusal.reason == Reason::NoRoom {
            self.put_too_many(out, f);
        } else if !is_marked(records, refusal) {
            self.put(out, f);
        }
    }
}
