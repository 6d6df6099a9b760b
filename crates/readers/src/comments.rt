// White space, lines and comments.
ghost use Rattle.std.specs.Prelude.{ℕ, Bool, ◌≡◌};
ghost use Rattle.classes.specs.Classes.{is_white_space};
ghost use Rattle.readers.specs.Passing.{pass_one, untested};
ghost use Rattle.readers.specs.Readers.{Tests, comment_end, comment_of, in_line, run};
ghost use Rattle.readers.specs.Rules.{skip_of};
ghost use Rattle.text.specs.Utf8.{rest, width};

use crate::reading::Comments;
use text::Scalar;
use text::character::LINE_FEED;
use token::{Kind, Refusal, Token};

// A test of scalars; `passing` is its definition.
pub trait Test {
    ghost passing: { ℕ → Bool };

    fn passes(v: u32) -> bool
        ensures { result ≡ passing v };
}

struct WhiteSpace;

impl Test for WhiteSpace {
    ghost passing = { is_white_space };

    fn passes(v: u32) -> bool {
        classes::is_whitespace(v)
    }
}

struct InLine;

impl Test for InLine {
    ghost passing = { in_line };

    fn passes(v: u32) -> bool {
        v != LINE_FEED
    }
}

// The place where the run of scalars that pass a test ends.
pub fn run_end_by<T: Test>(s: &[u8], at: usize) -> usize
    ensures { result ≡ run width T.passing (rest s.now at) at }
{
    let mut p = at;
    loop {
        let Some(Scalar { value, next }) = text::scalar_at(s, p) else {
            return p;
        };
        if !T::passes(value) {
            return p;
        }
        p = next;
    }
}

// The same by a closure. It may hold a value, which a type cannot, and has to be one that may be called.
pub fn run_end<F: Fn(u32) -> bool>(s: &[u8], at: usize, passes: F) -> usize
    requires { F.IsAlwaysCallable passes }
    ensures { (f : ℕ → Bool) → Tests (F.post passes) f → result ≡ run width f (rest s.now at) at }
{
    let mut p = at;
    loop {
        let Some(Scalar { value, next }) = text::scalar_at(s, p) else {
            return p;
        };
        if !passes(value) {
            return p;
        }
        p = next;
    }
}

// The place where the white space at a place ends.
pub fn consume_whitespace(s: &[u8], at: usize) -> usize
    ensures { result ≡ run width is_white_space (rest s.now at) at }
{
    run_end_by::<WhiteSpace>(s, at)
}

// The place of the next LF, or the end.
pub fn consume_line(s: &[u8], at: usize) -> usize
    ensures { result ≡ run width in_line (rest s.now at) at }
{
    run_end_by::<InLine>(s, at)
}

// The place after a scalar, or the same place where there is none.
fn pass_one(s: &[u8], at: usize) -> usize
    ensures { result ≡ pass_one width (rest s.now at) at }
{
    let Some(Scalar { value: _, next }) = text::scalar_at(s, at) else {
        return at;
    };
    next
}

// The place after the scalars that a comment passes over untested.
fn pass_untested(s: &[u8], comments: Comments, at: usize) -> usize
    ensures { result ≡ untested comments s.now at }
{
    match comments {
        Comments::Crate => pass_one(s, pass_one(s, at)),
        Comments::First => at,
    }
}

// Where a comment ends, and whether a close ended it. No Option: the place counts in both cases, as document 01 has it.
#[derive(Clone, Copy)]
struct Ended {
    end: usize,
    closed: bool,
}

// The first `*/` from a place on, or the end of the text.
fn comment_end(s: &[u8], at: usize) -> Ended
    ensures { result ≡ comment_end width 0 (rest s.now at) at }
{
    let mut p = at;
    loop {
        if text::byte_at(s, p) == b'*' {
            p += 1;
            if text::byte_at(s, p) == b'/' {
                break Ended {
                    end: p + 1,
                    closed: true,
                };
            }
        } else {
            let Some(Scalar { value: _, next }) = text::scalar_at(s, p) else {
                break Ended {
                    end: p,
                    closed: false,
                };
            };
            p = next;
        }
    }
}

// A comment, from after its opening on.
pub fn next_multiline_comment(
    s: &[u8],
    comments: Comments,
    start: usize,
    at: usize,
) -> Result<Token, Refusal>
    ensures { result ≡ comment_of width (skip_of comments) start (rest s.now at) at }
{
    let Ended { end, closed } = comment_end(s, pass_untested(s, comments, at));
    token::got(Kind::MultilineComment { closed }, start, end)
}
