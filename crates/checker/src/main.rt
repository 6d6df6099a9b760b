// What rule files have that their writers would want to know, told for a person or a script. The last act is the status on descriptor 3:
// 0 nothing found, 1 something found or refused, 2 could not run.
#![tactic(auto)]

mod asked;
mod files;
mod records;
mod tally;

use buffer::{Ending, Streams};
use files::{Memory, Run};
use std::rt::{Env, Files};
use tally::Tally;

fn ending_of(tally: Tally) -> Ending {
    if !tally.all_read() {
        Ending::Failed
    } else if tally.is_clean() {
        Ending::Clean
    } else {
        Ending::Told
    }
}

// One who reads no more is told nothing.
fn check_all<R: Files + Env>(rt: &R, streams: Streams, files: usize, name: &mut [u8]) -> Ending {
    let mut run = Run::new(streams, files);
    run.check_files(rt, name, &mut Memory::new());
    if run.out.flush().is_ok() {
        return ending_of(run.tally);
    }
    if !run.out.is_left() {
        let _ = streams
            .err
            .write_all(b"checker: cannot write to standard output\n");
    }
    Ending::Failed
}

fn main(rt: HostRuntime) {
    let streams = Streams {
        from: rt.stdin(),
        to: rt.stdout(),
        err: rt.stderr(),
    };
    let mut name = [0u8; 4096];
    let ending = match asked::count_files(&rt, streams.err, &mut name) {
        Some(files @ 1..) => check_all(&rt, streams, files, &mut name),
        _ => {
            asked::say_usage(streams.err);
            Ending::Failed
        }
    };
    buffer::leave(&rt, ending);
}
