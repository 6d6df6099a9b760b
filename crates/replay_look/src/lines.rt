// The lines of rust/oracle for lookahead scripts.
use crate::calls::{Call, answer, call_of};
use buffer::Page;
use lookahead::{Ahead, Done, Stop};
use std::fmt::Write;
use token::Refusal;

pub fn put_refused(out: &mut Page, refusal: Refusal) {
    let span = refusal.span;
    let _ = writeln!(
        out,
        "refused {} {} {}",
        u32::from(refusal.reason),
        span.start,
        span.end
    );
}

// Of a call that is outside of what is compared.
const OUTSIDE: &[u8] = b"outside\n";

// What is refused by 30 to 33 is outside of what is compared. The state is always the script's own: it is never refused by 34.
fn put_stop(out: &mut Page, stop: Stop) {
    out.put_bytes(match stop {
        Stop::Faulty => b"unsound\n",
        _ => OUTSIDE,
    });
}

// The first words of a store: three for each of so many tokens, as far as it has them.
fn put_tokens(out: &mut Page, words: &[u32], count: usize) {
    for token in words.chunks(3).take(count) {
        for word in token {
            let _ = write!(out, " {word}");
        }
    }
}

// The numbers of an answer that is in no store.
fn put_answer(out: &mut Page, call: Call, done: Done) {
    let Done {
        value,
        start,
        end,
        ..
    } = done;
    let _ = match call {
        Call::Fill(_) | Call::Array(_) | Call::Advance(_) => Ok(()),
        Call::FlushWs => write!(out, " {start} {end}"),
        Call::NthToken(_) | Call::Bump => write!(out, " {value} {start} {end}"),
        _ => write!(out, " {value}"),
    };
}

// What `array` wrote is its answer, and what another call wrote it emitted.
fn put_written(out: &mut Page, call: Call, words: &[u32], count: usize) {
    if let Call::Array(_) = call {
        put_tokens(out, words, count);
        out.put_bytes(b" |");
    } else {
        out.put_bytes(b" |");
        put_tokens(out, words, count);
    }
}

// Whether the script goes on: not after a refusal.
fn put_looked(out: &mut Page, call: Call, answer: Result<Done, Stop>, written: &[u32]) -> bool {
    match answer {
        Err(stop) => {
            put_stop(out, stop);
            false
        }
        Ok(done) => {
            let _ = write!(out, "{call}");
            put_answer(out, call, done);
            put_written(out, call, written, done.count);
            out.put(b'\n');
            true
        }
    }
}

// A line a call, until one is refused.
pub fn put_calls(
    out: &mut Page,
    keep: bool,
    list: &[u32],
    script: &[u8],
    written: &mut [u32; 12288],
) {
    let mut state = Ahead::new(keep);
    for pair in script.chunks_exact(2) {
        let [code, n] = pair else {
            return;
        };
        let Some(call) = call_of(*code, *n) else {
            out.put_bytes(OUTSIDE);
            return;
        };
        let answered = answer(&mut state, call, list, written);
        if !put_looked(out, call, answered, written) {
            return;
        }
    }
}
