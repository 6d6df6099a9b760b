// A buffer on its way to standard output, and one that is filled from a reader; what went wrong, and how a program ended.
// Every function here is safe and ends. What is read and what reaches standard output no contract can say: runs show it.
#![tactic(auto)]

pub mod fault;
mod writer;

ghost use Rattle.std.specs.Prelude.{◌≡◌, ◌≤◌, length};
ghost use Rattle.std.specs.Io.{ReadsAtMost};
ghost use Rattle.buffer.specs.Endings.{status_of};

use std::fs::OpenOptions;
use std::io;
use std::io::{Read, Stderr, Stdin, Stdout, Write};
use std::rt::Files;
pub use writer::{Page, Writer};

// The streams of a program.
#[derive(Clone, Copy)]
pub struct Streams {
    pub from: Stdin,
    pub to: Stdout,
    pub err: Stderr,
}

// Reads until the buffer is full or the input ends; how many bytes stand at its start now.
pub fn fill<R: Read>(from: &mut R, into: &mut [u8]) -> io::Result<usize>
    ensures { ReadsAtMost result into.new }
{
    let mut count: usize = 0;
    while count < into.len() {
        match from.read(&mut into[count..])? {
            0 => break,
            more => count += more,
        }
    }
    Ok(count)
}

// Reads as `fill` does; how many bytes stand at the buffer's start now, also where a read failed.
pub fn read_full<R: Read>(from: &mut R, into: &mut [u8]) -> usize
    ensures { result ≤ length into.new }
{
    let mut count: usize = 0;
    while count < into.len() {
        match from.read(&mut into[count..]) {
            Ok(more @ 1..) => count += more,
            _ => break,
        }
    }
    count
}

// Whether descriptor 3 is open for writing. The second line that the system tells of it are its flags, in octal: its mode is what the last digit leaves
// over 4, and 0 is for reading alone.
fn is_written_to(rt: &impl Files) -> io::Result<bool> {
    let mut told = [0u8; 64];
    let mut file = OpenOptions::new()
        .read(true)
        .open(rt, "/proc/self/fdinfo/3")?;
    let count = fill(&mut file, &mut told)?;
    let mut lines = told[..count].split(|byte| *byte == b'\n');
    let flags = lines.nth(1).and_then(|line| line.last());
    Ok(flags.is_some_and(|digit| *digit % 4 != 0))
}

// How a program ended: all was well, it told of something in its input, or it could not do its work.
#[derive(Clone, Copy)]
pub enum Ending {
    Clean,
    Told,
    Failed,
}

impl From<Ending> for u8 {
    ghost from_gives = { λ ending status. status ≡ status_of ending };

    fn from(ending: Ending) -> u8 {
        ending as u8
    }
}

// Writes how the program ended to descriptor 3, as one digit: an ending, or a status, of which all above 1 are 2. Where nobody opened it, nobody asks.
pub fn leave<S: Into<u8>>(rt: &impl Files, status: S) {
    let status: u8 = status.into();
    if !is_written_to(rt).unwrap_or(false) {
        return;
    }
    // A pipe whose reader has left is opened at once where it is opened for reading too.
    if let Ok(mut file) = OpenOptions::new()
        .read(true)
        .append(true)
        .open(rt, "/proc/self/fd/3")
    {
        let _ = file.write_all(&[b'0' + status.min(2)]);
    }
}
