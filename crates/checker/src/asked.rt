// What the arguments ask for, one after the other: an option holds for the files after it.
use places::part;
use readers::{Comments, Reading};
use std::io::Stderr;
use std::rt::Env;

#[derive(Clone, Copy, PartialEq, Eq, Drop)]
pub(crate) enum Layout {
    Text,
    Json,
    Quiet,
}

// expects says that the value of `--comments` comes next.
#[derive(Clone, Copy, Drop)]
pub(crate) struct Settings {
    pub reading: Reading,
    pub layout: Layout,
    pub colour: bool,
    expects: bool,
}

// What an argument is: a file's name, or a part of an option.
#[derive(Clone, Copy, Drop)]
pub(crate) enum Argument {
    File,
    Setting,
}

#[derive(Clone, Copy, Drop)]
pub(crate) enum Wrong {
    NoOption,
    NoReading,
}

impl Wrong {
    fn tell(self, err: Stderr, word: &[u8]) {
        match self {
            Wrong::NoOption => tell(err, b"checker: there is no option "),
            Wrong::NoReading => tell(
                err,
                b"checker: after --comments comes crate or first, and not ",
            ),
        }
        tell(err, word);
        tell(err, b"\n");
    }
}

impl Settings {
    pub(crate) fn new() -> Settings {
        Settings {
            reading: Reading {
                comments: Comments::Crate,
            },
            layout: Layout::Text,
            colour: false,
            expects: false,
        }
    }

    fn take_reading(&mut self, word: &[u8]) -> Result<Argument, Wrong> {
        let Some(reading) = arguments::reading_named(b"--comments", word) else {
            return Err(Wrong::NoReading);
        };
        self.reading = reading;
        self.expects = false;
        Ok(Argument::Setting)
    }

    // A lone `-` is standard input.
    pub(crate) fn take(&mut self, word: &[u8]) -> Result<Argument, Wrong> {
        if self.expects {
            return self.take_reading(word);
        }
        match word {
            b"--comments" => self.expects = true,
            b"--text" => self.layout = Layout::Text,
            b"--json" => self.layout = Layout::Json,
            b"--quiet" => self.layout = Layout::Quiet,
            b"--colour" => self.colour = true,
            [b'-', _, ..] => return Err(Wrong::NoOption),
            _ => return Ok(Argument::File),
        }
        Ok(Argument::Setting)
    }
}

// An argument that does not fit there is as good as an empty one: it names no file.
pub(crate) fn read_argument<'a>(rt: &impl Env, i: usize, into: &'a mut [u8]) -> &'a [u8] {
    let length = arguments::word(rt, i, into);
    part(into, 0, length)
}

fn tell(err: Stderr, bytes: &[u8]) {
    let _ = err.write_all(bytes);
}

// How many files are named; nothing where the arguments are wrong, which is told.
pub(crate) fn count_files(rt: &impl Env, err: Stderr, into: &mut [u8]) -> Option<usize> {
    let mut settings = Settings::new();
    let mut files: usize = 0;
    for i in 1..arguments::count(rt) {
        let word = read_argument(rt, i, into);
        match settings.take(word) {
            Ok(Argument::File) => files = files.saturating_add(1),
            Ok(Argument::Setting) => {}
            Err(wrong) => {
                wrong.tell(err, word);
                return None;
            }
        }
    }
    if settings.expects {
        tell(err, b"checker: after --comments comes crate or first\n");
        return None;
    }
    Some(files)
}

pub(crate) fn say_usage(err: Stderr) {
    tell(
        err,
        b"usage: checker [--comments crate|first] [--text|--json] [--colour] [--quiet] FILE..\n",
    );
}
