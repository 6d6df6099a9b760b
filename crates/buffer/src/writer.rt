// Bytes on their way to standard output. They wait in a buffer until it is full or they are flushed.
// Every function here is safe and ends. What reaches standard output no contract can say: runs show it.
ghost use Rattle.std.specs.Prelude.{◌≡◌, ◌↔◌, IsTrue, None, Some, option_and_then, pos};
ghost use Rattle.std.specs.IoError.{raw_os_error};

use crate::fault::has_no_reader;
use arrayvec::ArrayVec;
use std::fmt::Write;
use std::io::Stdout;
use std::{fmt, io};

// After a write that failed nothing is written any more, and what is put is let go.
#[derive(Drop)]
pub struct Writer<const ROOM: usize> {
    to: Stdout,
    waiting: ArrayVec<u8, ROOM>,
    failed: Option<io::Error>,
}

// Small, since it is made anew for each answer.
pub type Page = Writer<512>;

impl<const ROOM: usize> Writer<ROOM> {
    pub fn new(to: Stdout) -> Self
        ensures { result.failed ≡ None }
    {
        Writer {
            to,
            waiting: ArrayVec::new(),
            failed: None,
        }
    }

    fn send(&mut self) {
        if self.failed.is_none() {
            self.failed = Print::write_all(&self.to, self.waiting.as_slice()).err();
        }
        self.waiting.clear();
    }

    // A buffer without a place loses every byte.
    pub fn put(&mut self, byte: u8) {
        if self.waiting.is_full() {
            self.send();
        }
        let _ = self.waiting.try_push(byte);
    }

    pub fn put_bytes(&mut self, bytes: &[u8]) {
        for byte in bytes {
            self.put(*byte);
        }
    }

    // Writes what waits. An error where that failed, or a write before it did.
    pub fn flush(&mut self) -> io::Result<()> {
        self.send();
        self.failed.map_or(Ok(()), Err)
    }

    // Its reader has left.
    pub fn is_left(&self) -> bool
        ensures { IsTrue result ↔ (option_and_then raw_os_error self.now.failed ≡ Some (pos 32)) }
    {
        self.failed.as_ref().is_some_and(has_no_reader)
    }
}

// Nothing that is put fails: `flush` tells of a write that did.
impl<const ROOM: usize> Write for Writer<ROOM> {
    fn write_str(&mut self, text: &str) -> fmt::Result {
        self.put_bytes(text.as_bytes());
        Ok(())
    }
}
