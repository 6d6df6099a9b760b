// The outline of standard input on standard output; why reading stopped, if it did, on standard error. Comments end as in rune unless
// `--comments first` is asked.
#![tactic(auto)]

use buffer::fault::tell;
use buffer::{Ending, Streams};
use readers::Reading;
use std::io;
use token::{Reason, Refusal};

// Why reading stopped.
fn say(streams: Streams, refusal: Refusal) {
    let span = refusal.span;
    let _ = println!(streams.err;
        "refused {} {} {}",
        u32::from(refusal.reason),
        span.start,
        span.end
    );
}

// A source that is too long or ill-formed gets no outline, nor does one without room.
fn print(streams: Streams, s: &[u8], reading: Reading, out: &mut [u8]) -> io::Result<Ending> {
    if out.len() < s.len() {
        let _ = println!(streams.err; "refused 1 0 0");
        return Ok(Ending::Told);
    }
    match outline::outline(s, reading, out) {
        Ok(()) => {
            Print::write_all(&streams.to, &out[..s.len()])?;
            Ok(Ending::Clean)
        }
        Err(refusal) => {
            if !matches!(
                refusal.reason,
                Reason::TooLong | Reason::IllFormed | Reason::NoRoom
            ) {
                Print::write_all(&streams.to, &out[..s.len()])?;
            }
            say(streams, refusal);
            Ok(Ending::Told)
        }
    }
}

fn told(streams: Streams, what: &[u8], error: io::Error) -> Ending {
    tell(streams.err, what, error);
    Ending::Failed
}

fn read_and_print(streams: Streams, reading: Reading) -> Ending {
    // One byte more than a source may have tells an over-long input.
    let mut source = [0u8; 65537];
    let mut from = streams.from;
    let count = match buffer::fill(&mut from, &mut source) {
        Ok(count) => count,
        Err(error) => return told(streams, b"outliner: cannot read standard input", error),
    };
    let mut out = [0u8; 65536];
    match print(streams, &source[..count], reading, &mut out) {
        Ok(ending) => ending,
        Err(error) => told(streams, b"outliner: cannot write to standard output", error),
    }
}

fn main(rt: HostRuntime) {
    let streams = Streams {
        from: rt.stdin(),
        to: rt.stdout(),
        err: rt.stderr(),
    };
    let Some(reading) = arguments::asked(&rt) else {
        arguments::say_usage(streams.err, b"outliner");
        buffer::leave(&rt, Ending::Failed);
        return;
    };
    let ending = read_and_print(streams, reading);
    buffer::leave(&rt, ending);
}
