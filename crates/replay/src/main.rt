// Answers framed inputs as rust/oracle does, so that our answers can be compared with the Rust's: mode `L`, a source to list.
// What it must print is what the Rust answered, and of numbers what tests/numbers.py says: `stdin` and `stdout` are rust/recorded/list.frames and
// list.answers, with numbers.frames and numbers.answers after them.
#![tactic(auto)]

use buffer::{Writer, read_full};
use readers::{Comments, Reading};
use std::io::{Read, Stdin};

type Out = Writer<65536>;

// A mode byte and a length, low byte first. Any other mode ends the replay.
fn read_head(from: &mut Stdin) -> Option<usize> {
    let mut head = [0u8; 5];
    from.read_exact(&mut head).ok()?;
    let [mode, a, b, c, d] = head;
    if mode != b'L' {
        return None;
    }
    Some(u32::from_le_bytes([a, b, c, d]) as usize)
}

// Reads past what an over-long payload has beyond the lent bytes, by way of them.
fn skip(from: &mut Stdin, source: &mut [u8], count: usize) {
    let mut left = count;
    while source.len() < left {
        if read_full(from, source) == 0 {
            return;
        }
        left -= source.len();
    }
    read_full(from, &mut source[..left]);
}

// The frame's answer and a line `.`. A payload that does not fit is over-long in any case: its front is listed, and so is what came before a read that failed.
fn answer(from: &mut Stdin, length: usize, source: &mut [u8], out: &mut Out) {
    let held = length.min(source.len());
    let got = read_full(from, &mut source[..held]);
    let reading = Reading {
        comments: Comments::Crate,
    };
    let _ = printing::list(out, &source[..got], reading);
    skip(from, source, length - held);
    out.put_bytes(b".\n");
}

// Nothing says that the input ends: the number of turns falls. Where nobody reads the answers there are no more.
fn answer_all(from: &mut Stdin, source: &mut [u8], out: &mut Out) {
    for _ in 0..u64::MAX {
        let Some(length) = read_head(from) else {
            break;
        };
        answer(from, length, source, out);
        if out.is_left() {
            break;
        }
    }
}

fn main(rt: HostRuntime) {
    let mut source = [0u8; 65537];
    let mut out = Out::new(rt.stdout());
    answer_all(&mut rt.stdin(), &mut source, &mut out);
    let _ = out.flush();
}
