// The reading that the arguments of a program name. What two words name equals its definition in specs/; no contract says what the program was started with.
#![tactic(auto)]

ghost use Rattle.std.specs.Prelude.{◌≡◌, ◌≤◌, length};
ghost use Rattle.arguments.specs.Words.{chosen_of, reading_named};

use readers::{Comments, Reading};
use std::env::FillError;
use std::io::Stderr;
use std::rt::Env;

fn chosen(comments: Comments) -> Option<Reading>
    ensures { result ≡ chosen_of comments }
{
    Some(Reading { comments })
}

// `--comments crate` or `--comments first`.
#[tactic(auto, unfolding(crate::specs::Words::reading_named))]
pub fn reading_named(option: &[u8], value: &[u8]) -> Option<Reading>
    ensures { result ≡ reading_named option.now value.now }
{
    if option != b"--comments".as_slice() {
        return None;
    }
    if value == b"crate".as_slice() {
        return chosen(Comments::Crate);
    }
    if value == b"first".as_slice() {
        return chosen(Comments::First);
    }
    None
}

// How many words the program was started with, its name among them.
pub fn count(rt: &impl Env) -> usize {
    (0..usize::MAX)
        .find(|i| rt
            .arg(*i, &mut [])
            .is_err_and(|error| error == FillError::NotPresent))
        .unwrap_or(usize::MAX)
}

// Puts one of them at the front of the lent bytes; its length, or 0 where there is none or it does not fit.
pub fn word(rt: &impl Env, i: usize, into: &mut [u8]) -> usize
    ensures { result ≤ length into.new }
{
    rt.arg(i, into).unwrap_or(0)
}

// rune's reading unless one is named. An argument that does not fit is as good as an empty one: it names nothing.
pub fn asked(rt: &impl Env) -> Option<Reading> {
    match count(rt) {
        0 | 1 => chosen(Comments::Crate),
        3 => {
            let mut option = [0u8; 16];
            let n = word(rt, 1, &mut option);
            let mut value = [0u8; 16];
            let m = word(rt, 2, &mut value);
            reading_named(&option[..n], &value[..m])
        }
        _ => None,
    }
}

// What to write instead, on standard error.
pub fn say_usage(err: Stderr, program: &[u8]) {
    let _ = Print::write_all(&err, b"usage: ");
    let _ = Print::write_all(&err, program);
    let _ = Print::write_all(&err, b" [--comments crate|first]\n");
}
