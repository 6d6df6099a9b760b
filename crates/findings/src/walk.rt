// Two readings side by side: the one in force, and the one in which the first `*/` ends a comment.
ghost use Rattle.std.specs.Prelude.{◌-◌, ◌≤◌, ◌≡◌, Ok, Some, length};
ghost use Rattle.std.proofs.lemmas.List.Edits.{sets};
ghost use Rattle.families.specs.Tokens.{tokens_at};
ghost use Rattle.findings.specs.Findings.{across, alike, alone, answer_found, as_code, ends_as, findings_of, found_of, from_of, holds_at, is_comment, is_white_or_comment, mark_of, onward, plain_finding, runs_on, runs_on_code, stored_findings, under_first, walk_at, words_found};
ghost use Rattle.findings.specs.InStep.{parts_of};
ghost use Rattle.lexer.specs.Next.{next_at};
ghost use Rattle.readers.specs.Rules.{rules_of};
ghost use Rattle.text.specs.Utf8.{from, rest};
ghost use Rattle.token.specs.Reads.{reached_of};

use crate::code::Code;
use crate::store::{Finding, Noted, note};
use listing::Stopped;
use readers::{Comments, Reading};
use text::Scalar;
use token::{Reason, Refusal, Token};

// A place, and what is read there.
#[derive(Clone, Copy)]
struct Under {
    place: usize,
    read: Result<Token, Refusal>,
}

fn under_first(reading: Reading) -> Reading
    ensures { result ≡ under_first reading }
{
    Reading {
        comments: Comments::First,
    }
}

fn is_blank(token: Token) -> bool
    ensures { result ≡ is_white_or_comment token }
{
    numbers::number_of(token.kind) <= 4
}

fn is_comment(token: Token) -> bool
    ensures { result ≡ is_comment token }
{
    let kind = token.kind;
    let n = numbers::number_of(kind);
    if n < 2 {
        return false;
    }
    n <= 4
}

fn reached(read: Result<Token, Refusal>) -> usize
    ensures { result ≡ reached_of read }
{
    match read {
        Ok(token) => token.span.end,
        Err(refusal) => refusal.reached,
    }
}

fn plain(code: Code, start: usize, end: usize) -> Option<Finding>
    ensures { result ≡ Some (plain_finding code start end) }
{
    Some(Finding {
        code,
        start,
        end,
        from: end,
        to: end,
    })
}

// Whether a stretch holds anything but white space and comments.
fn holds(s: &[u8], reading: Reading, from: usize, to: usize) -> bool
    ensures { result ≡ holds_at reading s.now from to }
{
    let mut p = from;
    loop {
        if to <= p {
            return false;
        }
        let Ok(token) = lexer::next(s, reading, p) else {
            return true;
        };
        let end = token.span.end;
        if end == p {
            return false;
        }
        if !is_blank(token) {
            return true;
        }
        p = end;
    }
}

fn runs_on_code(s: &[u8], reading: Reading, from: usize, to: usize) -> Code
    ensures { result ≡ runs_on_code reading s.now from to }
{
    if holds(s, reading, from, to) {
        return Code::RunsOn;
    }
    Code::RunsOnBlank
}

fn runs_on(s: &[u8], reading: Reading, at: usize, here: usize, there: usize) -> Finding
    ensures { result ≡ runs_on reading s.now at here there }
{
    if there <= here {
        return Finding {
            code: runs_on_code(s, under_first(reading), there, here),
            start: at,
            end: here,
            from: there,
            to: here,
        };
    }
    Finding {
        code: runs_on_code(s, reading, here, there),
        start: at,
        end: here,
        from: here,
        to: there,
    }
}

// Two tokens that a list stores alike: where they start it does not matter here, nor whether a mark closed a template.
fn alike_got(a: Token, b: Token) -> bool
    ensures { result ≡ alike (Ok a) (Ok b) }
{
    if numbers::number_of(a.kind) != numbers::number_of(b.kind) {
        return false;
    }
    a.span.end == b.span.end
}

fn alike(a: Result<Token, Refusal>, b: Result<Token, Refusal>) -> bool
    ensures { result ≡ alike a b }
{
    match a {
        Ok(token) => {
            let Ok(other) = b else {
                return false;
            };
            alike_got(token, other)
        }
        Err(refusal) => {
            let Err(other) = b else {
                return false;
            };
            refusal == other
        }
    }
}

fn as_code(
    at: usize,
    a: Result<Token, Refusal>,
    place: usize,
    b: Result<Token, Refusal>,
) -> Option<Finding>
    ensures { result ≡ as_code at a place b }
{
    let Ok(token) = a else {
        return None;
    };
    let Ok(other) = b else {
        return None;
    };
    if !is_comment(other) {
        return None;
    }
    if is_blank(token) {
        return None;
    }
    Some(Finding {
        code: Code::ReadAsCode,
        start: at,
        end: token.span.end,
        from: place,
        to: other.span.end,
    })
}

// What the answer at a place tells beside the one under First.
fn across(
    s: &[u8],
    reading: Reading,
    at: usize,
    a: Result<Token, Refusal>,
    under: Under,
) -> Option<Finding>
    ensures { result ≡ across reading s.now at a under.place under.read }
{
    let b = under.read;
    if under.place != at {
        return as_code(at, a, under.place, b);
    }
    if alike(a, b) {
        return None;
    }
    Some(runs_on(s, reading, at, reached(a), reached(b)))
}

// What a token tells by itself.
fn alone(at: usize, token: Token) -> Option<Finding>
    ensures { result ≡ alone at token }
{
    let kind = token.kind;
    let end = token.span.end;
    let n = numbers::number_of(kind);
    if n == 4 {
        return plain(Code::CommentUnclosed, at, end);
    }
    if n != 16 {
        return None;
    }
    if marks::closes(kind) != 0 {
        return None;
    }
    plain(Code::TemplateUnclosed, at, end)
}

fn mark(s: &[u8]) -> Option<Finding>
    ensures { result ≡ mark_of (rest s.now 0) }
{
    let Some(Scalar { value, next: _ }) = text::scalar_at(s, 0) else {
        return None;
    };
    if value != 0xFEFF {
        return None;
    }
    plain(Code::ByteOrderMark, 0, 3)
}

// A comment, a template, or 19: nothing else is read otherwise under First.
fn parts(a: Result<Token, Refusal>) -> bool
    ensures { result ≡ parts_of a }
{
    match a {
        Ok(token) => {
            let kind = token.kind;
            let n = numbers::number_of(kind);
            if n == 16 {
                return true;
            }
            if n < 3 {
                return false;
            }
            n <= 4
        }
        Err(refusal) => refusal.reason == Reason::TooDeep,
    }
}

// What is read under First at a place, where a is read at `at`: mostly the same, and then it is not read again.
fn read_under(
    s: &[u8],
    reading: Reading,
    at: usize,
    a: Result<Token, Refusal>,
    place: usize,
) -> Result<Token, Refusal>
    requires { a ≡ next_at reading s.now at }
    ensures { result ≡ next_at (under_first reading) s.now place }
{
    if place == at {
        if !parts(a) {
            return a;
        }
    }
    lexer::next(s, under_first(reading), place)
}

// Under First, on to the token that covers a place.
fn onward(s: &[u8], reading: Reading, at: usize, a: Result<Token, Refusal>, under: Under) -> Under
    requires { (under.read ≡ next_at (under_first reading) s.now under.place) × (under.place ≤ length s.now) × (a ≡ next_at reading s.now at) }
    ensures { (result.read ≡ next_at (under_first reading) s.now result.place)
        × (result.place ≤ length s.now)
        × (onward at under.place (tokens_at (rules_of (under_first reading)) s.now under.place) ≡ from_of (under_first reading) s.now result.place) }
{
    let mut place = under.place;
    let mut read = under.read;
    loop {
        let Ok(token) = read else {
            return Under { place, read };
        };
        let end = token.span.end;
        if at < end {
            return Under { place, read };
        }
        if end == place {
            return Under { place, read };
        }
        read = read_under(s, reading, at, a, end);
        place = end;
    }
}

fn find_tokens(
    s: &[u8],
    reading: Reading,
    store: &mut [u32],
    first: Noted,
) -> Result<usize, Stopped>
    requires { (length s.now ≤ 65536) × (first.words ≤ length store.old) × (first.count ≤ first.words) }
    ensures { (result ≡ answer_found (walk_at reading s.now 0 0) (ends_as (tokens_at (rules_of reading) s.now 0)) (length store.old - first.words) first.count)
        × (store.new ≡ sets store.old first.words (words_found (walk_at reading s.now 0 0) (length store.old - first.words))) }
{
    let mut noted = first;
    let mut at: usize = 0;
    let mut under = Under {
        place: 0,
        read: lexer::next(s, under_first(reading), 0),
    };
    loop {
        let a = lexer::next(s, reading, at);
        if reached(a) == at {
            return Ok(noted.count);
        }
        under = onward(s, reading, at, a, under);
        noted = note(store, noted, across(s, reading, at, a, under))?;
        let Ok(token) = a else {
            return Err(Stopped {
                count: noted.count,
                refusal: a.unwrap_err(),
            });
        };
        noted = note(store, noted, alone(at, token))?;
        at = token.span.end;
    }
}

fn find_all(s: &[u8], reading: Reading, store: &mut [u32]) -> Result<usize, Stopped>
    requires { length s.now ≤ 65536 }
    ensures { (result ≡ answer_found (found_of reading s.now) (ends_as (tokens_at (rules_of reading) s.now 0)) (length store.old) 0)
        × (store.new ≡ sets store.old 0 (words_found (found_of reading s.now) (length store.old))) }
{
    let none = Noted { words: 0, count: 0 };
    let noted = note(store, none, mark(s))?;
    find_tokens(s, reading, store, noted)
}

pub fn findings(s: &[u8], reading: Reading, store: &mut [u32]) -> Result<usize, Stopped>
    ensures { (result ≡ findings_of reading s.now (length store.old))
        × (store.new ≡ sets store.old 0 (stored_findings reading s.now (length store.old))) }
{
    source_test::test_source(s)?;
    find_all(s, reading, store)
}
