// Reads framed bodies and prints what `unescape` answers, in the form of rust/oracle. What it must print is what the Rust printed.
// A frame is a mode byte, a length as a little-endian u32, and that many bytes. What is no whole frame ends the run.
#![tactic(auto)]

use buffer::Page;
use places::part;
use std::fmt::Write;
use std::io::{Read, Stdin, Stdout};
use token::Refusal;
use unescape::Form;

// A body's form and length.
#[derive(Clone, Copy)]
struct Frame {
    form: Form,
    size: usize,
}

fn form_of(mode: u8) -> Option<Form> {
    match mode {
        b't' => Some(Form::Text),
        b'p' => Some(Form::Template),
        b'c' => Some(Form::Char),
        b's' => Some(Form::ByteText),
        b'b' => Some(Form::Byte),
        _ => None,
    }
}

fn read_head(from: &mut Stdin) -> Option<Frame> {
    let mut head = [0u8; 5];
    from.read_exact(&mut head).ok()?;
    let [mode, a, b, c, d] = head;
    Some(Frame {
        form: form_of(mode)?,
        size: u32::from_le_bytes([a, b, c, d]) as usize,
    })
}

fn put_hex(out: &mut Page, bytes: &[u8]) {
    for byte in bytes {
        let _ = write!(out, "{byte:02x}");
    }
}

fn put_written(out: &mut Page, bytes: &[u8]) {
    let _ = write!(out, "out {}", bytes.len());
    if bytes.is_empty() {
        return;
    }
    out.put(b' ');
    put_hex(out, bytes);
}

fn put_refused(out: &mut Page, refusal: Refusal) {
    let span = refusal.span;
    let _ = write!(
        out,
        "refused {} {} {}",
        u32::from(refusal.reason),
        span.start,
        span.end
    );
}

fn put_answer(out: &mut Page, body: &[u8], form: Form, written: &mut [u8]) {
    match unescape::unescape(body, form, written) {
        Ok(count) => put_written(out, part(written, 0, count)),
        Err(refusal) => put_refused(out, refusal),
    }
}

// A frame's answer and a line `.`; nothing where there was none, or nobody reads.
fn turn(from: &mut Stdin, to: Stdout, body: &mut [u8], written: &mut [u8]) -> Option<()> {
    let frame = read_head(from)?;
    let body = body.get_mut(..frame.size)?;
    from.read_exact(body).ok()?;
    let mut out = Page::new(to);
    put_answer(&mut out, body, frame.form, written);
    out.put_bytes(b"\n.\n");
    out.flush().ok()
}

// Nothing says that the input ends: the number of turns falls.
fn answer_all(from: &mut Stdin, to: Stdout, body: &mut [u8], written: &mut [u8]) {
    for _ in 0..u64::MAX {
        if turn(from, to, body, written).is_none() {
            break;
        }
    }
}

fn main(rt: HostRuntime) {
    // Room for a body that is too long by a little.
    let mut body = [0u8; 66000];
    let mut written = [0u8; 65536];
    answer_all(&mut rt.stdin(), rt.stdout(), &mut body, &mut written);
}
