// Reads framed lookahead scripts and prints what the lookahead's calls answer, in the form of rust/oracle, mode `a`. What it must
// print is what the Rust printed: `stdin` and `stdout` are rust/recorded/look.frames and look.answers.
#![tactic(auto)]

mod calls;
mod lines;

use buffer::Page;
use listing::Stopped;
use readers::{Comments, Reading};
use std::io::{Read, Stdin, Stdout};

// Where the source ends in a frame's payload, and where the calls after it do; and whether white space is kept.
#[derive(Clone, Copy)]
struct Frame {
    keep: bool,
    source: usize,
    end: usize,
}

fn length_of(bytes: [u8; 4]) -> usize {
    u32::from_le_bytes(bytes) as usize
}

// A mode byte, the payload's length, the byte for white space and the source's length, lengths low byte first. There is room for a
// source of 4096 bytes, and for as many calls.
fn read_head(from: &mut Stdin) -> Option<Frame> {
    let mut head = [0u8; 10];
    from.read_exact(&mut head).ok()?;
    let [mode, a, b, c, d, keep, e, f, g, h] = head;
    let end = length_of([a, b, c, d]).checked_sub(5)?;
    let source = length_of([e, f, g, h]);
    if mode != b'a' || 4096 < source {
        return None;
    }
    Some(Frame {
        keep: keep == 1,
        source,
        end,
    })
}

// The words of so many tokens.
fn front(list: &[u32], count: usize) -> &[u32] {
    list.get(..count.saturating_mul(3)).unwrap_or(list)
}

// The source is the payload's first bytes, and the calls are the others.
fn answer(
    out: &mut Page,
    keep: bool,
    source: &[u8],
    script: &[u8],
    list: &mut [u32; 12288],
    written: &mut [u32; 12288],
) {
    let reading = Reading {
        comments: Comments::Crate,
    };
    match listing::list(source, reading, list) {
        Err(Stopped { refusal, .. }) => lines::put_refused(out, refusal),
        Ok(count) => { lines::put_calls(out, keep, front(list, count), script, written) }
    }
}

// A frame's answer and a line `.`; nothing where there was none, or nobody reads. A source that is longer than its payload goes on in what stood there before.
fn turn(
    from: &mut Stdin,
    to: Stdout,
    payload: &mut [u8],
    list: &mut [u32; 12288],
    written: &mut [u32; 12288],
) -> Option<()> {
    let frame = read_head(from)?;
    from.read_exact(payload.get_mut(..frame.end)?).ok()?;
    let source = places::part(payload, 0, frame.source);
    let script = places::part(payload, frame.source, frame.end);
    let mut out = Page::new(to);
    answer(&mut out, frame.keep, source, script, list, written);
    out.put_bytes(b".\n");
    out.flush().ok()
}

fn main(rt: HostRuntime) {
    let mut payload = [0u8; 65536];
    // Three words for each byte of a source.
    let mut list = [0u32; 12288];
    let mut written = [0u32; 12288];
    let mut from = rt.stdin();
    let to = rt.stdout();
    // Nothing says that the input ends: the number of turns falls.
    for _ in 0..u64::MAX {
        if turn(&mut from, to, &mut payload, &mut list, &mut written).is_none() {
            break;
        }
    }
}
