// Document 01's lister: the tokens of standard input, a line each, then what ended them. Comments end as in rune unless `--comments first` is asked.
#![tactic(auto)]

use buffer::fault::tell;
use buffer::{Ending, Streams, Writer};
use readers::Reading;

fn list(streams: Streams, s: &[u8], reading: Reading) -> Ending {
    let mut out = Writer::<65536>::new(streams.to);
    let listed = printing::list(&mut out, s, reading);
    if let Err(error) = out.flush() {
        tell(
            streams.err,
            b"lister: cannot write to standard output",
            error,
        );
        return Ending::Failed;
    }
    match listed {
        Ok(()) => Ending::Clean,
        Err(_) => Ending::Told,
    }
}

// The outliner has its like: the two differ in what they do with what was read, and what is alike is one `match`.
fn read_and_list(streams: Streams, reading: Reading) -> Ending {
    // One byte more than a source may have tells an over-long input.
    let mut source = [0u8; 65537];
    let mut from = streams.from;
    match buffer::fill(&mut from, &mut source) {
        Ok(count) => list(streams, &source[..count], reading),
        Err(error) => {
            tell(streams.err, b"lister: cannot read standard input", error);
            Ending::Failed
        }
    }
}

fn main(rt: HostRuntime) {
    let streams = Streams {
        from: rt.stdin(),
        to: rt.stdout(),
        err: rt.stderr(),
    };
    let Some(reading) = arguments::asked(&rt) else {
        arguments::say_usage(streams.err, b"lister");
        buffer::leave(&rt, Ending::Failed);
        return;
    };
    let ending = read_and_list(streams, reading);
    buffer::leave(&rt, ending);
}
