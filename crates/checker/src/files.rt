// File by file: read it, find, tell, and sum up.
ghost use Rattle.std.specs.Io.{ReadsAtMost};

use crate::asked::{Argument, Layout, Settings, read_argument};
use crate::records::Telling;
use crate::tally::Tally;
use buffer::{Page, Streams, fault};
use listing::Stopped;
use report::Source;
use std::fmt::Write;
use std::fs::File;
use std::io::Stdin;
use std::rt::{Env, Files};
use std::{io, str};

// What a file's source and its findings are read into. One byte more than a source may have tells an over-long one.
#[derive(Drop)]
pub(crate) struct Memory {
    source: [u8; 65537],
    store: [u32; 5000],
}

impl Memory {
    pub(crate) fn new() -> Memory {
        Memory {
            source: [0; 65537],
            store: [0; 5000],
        }
    }
}

// How many files are named, what holds for the next one, and what was told of those before it.
#[derive(Drop)]
pub(crate) struct Run {
    streams: Streams,
    files: usize,
    settings: Settings,
    pub out: Page,
    pub tally: Tally,
}

// A file by its name.
fn read_named(rt: &impl Files, file: &[u8], source: &mut [u8]) -> io::Result<usize>
    ensures { ReadsAtMost result source.new }
{
    let name = str::from_utf8(file).map_err(|_| fault::ill_formed())?;
    let mut from = File::open(rt, name)?;
    buffer::fill(&mut from, source)
}

fn read(rt: &impl Files, mut from: Stdin, file: &[u8], source: &mut [u8]) -> io::Result<usize>
    ensures { ReadsAtMost result source.new }
{
    match file {
        b"-" => buffer::fill(&mut from, source),
        _ => read_named(rt, file, source),
    }
}

impl Run {
    pub(crate) fn new(streams: Streams, files: usize) -> Run {
        Run {
            streams,
            files,
            settings: Settings::new(),
            out: Page::new(streams.to),
            tally: Tally::default(),
        }
    }

    // Where several files are named, those without a finding are passed over in silence.
    fn put_file_line(&mut self, file: &[u8], found: Tally) {
        if self.settings.layout == Layout::Text && (self.files < 2 || !found.is_clean()) {
            self.out.put_bytes(file);
            self.out.put_bytes(b": ");
            found.put(&mut self.out);
        }
    }

    fn check_source(&mut self, source: Source, store: &mut [u32; 5000]) {
        let mut telling = Telling::new(source, self.settings);
        let (count, refusal) = match findings::findings(source.bytes, source.reading, store) {
            Ok(count) => (count, None),
            Err(Stopped { count, refusal }) => (count, Some(refusal)),
        };
        let (records, _) = store.as_chunks::<5>();
        let records = records.get(..count).unwrap_or(records);
        telling.put_records(&mut self.out, records);
        if let Some(refusal) = refusal {
            telling.put_refusal(&mut self.out, records, refusal);
        }
        self.put_file_line(source.name, telling.tally);
        self.tally += telling.tally;
    }

    // What waits is written before a file is read, so that it stands before what is told of that file on standard error.
    fn check_file(&mut self, rt: &impl Files, file: &[u8], memory: &mut Memory) {
        let _ = self.out.flush();
        if self.out.is_left() {
            return;
        }
        match read(rt, self.streams.from, file, &mut memory.source) {
            Ok(count) => {
                let source = Source {
                    name: file,
                    bytes: &memory.source[..count],
                    reading: self.settings.reading,
                };
                self.check_source(source, &mut memory.store);
            }
            Err(error) => {
                let _ = self.streams.err.write_all(b"checker: cannot read ");
                fault::tell(self.streams.err, file, error);
                self.tally.count_unread();
            }
        }
    }

    fn put_last_line(&mut self) {
        if self.settings.layout == Layout::Text && 2 <= self.files {
            let files = self.files;
            let _ = write!(self.out, "{files} files: ");
            self.tally.put(&mut self.out);
        }
    }

    // The arguments were counted, and none is wrong.
    pub(crate) fn check_files<R: Files + Env>(
        &mut self,
        rt: &R,
        name: &mut [u8],
        memory: &mut Memory,
    ) {
        for i in 1..arguments::count(rt) {
            let word = read_argument(rt, i, name);
            if let Ok(Argument::File) = self.settings.take(word) {
                self.check_file(rt, word, memory);
            }
        }
        self.put_last_line();
    }
}
