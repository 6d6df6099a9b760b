// The tokens of a source, three words each (kind, start, end), in a lent store; later words keep their content.
#![tactic(auto)]

ghost use Rattle.std.specs.Prelude.{◌+◌, ◌≤◌, ◌≡◌, length, set};
ghost use Rattle.std.proofs.lemmas.List.Edits.{sets};
ghost use Rattle.families.specs.Tokens.{tokens_at};
ghost use Rattle.lexer.specs.Next.{next_at};
ghost use Rattle.listing.specs.Listing.{list_answer, list_of, listed_words, no_room_at, stopped_at, stored_of};
ghost use Rattle.readers.specs.Rules.{rules_of};

use readers::Reading;
use rows::ROW;
use token::{Reason, Refusal, Span, Token};

// The refusal that ended the listing, and how many tokens were stored before.
#[derive(Clone, Copy, PartialEq, Eq)]
pub struct Stopped {
    pub count: usize,
    pub refusal: Refusal,
}

// A source that may not be read stores nothing.
impl From<Refusal> for Stopped {
    ghost from_gives = { λ refusal stopped. stopped ≡ stopped_at 0 refusal };

    fn from(refusal: Refusal) -> Stopped {
        Stopped { count: 0, refusal }
    }
}

// The store has no room for the token just read.
fn no_room(count: usize, span: Span) -> Stopped
    ensures { result ≡ stopped_at count (no_room_at span) }
{
    Stopped {
        count,
        refusal: Refusal {
            reason: Reason::NoRoom,
            span,
            reached: span.end,
        },
    }
}

// A shebang stands at 0 alone: everywhere else it is not looked for.
fn next_token(s: &[u8], reading: Reading, at: usize) -> Result<Token, Refusal>
    ensures { result ≡ next_at reading s.now at }
{
    if at == 0 {
        return lexer::next(s, reading, at);
    }
    lexer::next_past_start(s, reading, at)
}

// The three words of a token, at place n of the store.
fn put(store: &mut [u32], n: usize, number: u32, at: usize, end: usize)
    requires { (n + 3 ≤ length store.old) × (at ≤ 65536) × (end ≤ 65536) }
    ensures { store.new ≡ set (set (set store.old n number) (n + 1) at) (n + 2) end }
{
    store[n] = number;
    store[n + 1] = at as u32;
    store[n + 2] = end as u32;
}

fn list_tokens(s: &[u8], reading: Reading, store: &mut [u32]) -> Result<usize, Stopped>
    requires { length s.now ≤ 65536 }
    ensures { (result ≡ list_answer (tokens_at (rules_of reading) s.now 0) (length store.old) 0)
        × (store.new ≡ sets store.old 0 (listed_words (tokens_at (rules_of reading) s.now 0) (length store.old))) }
{
    let mut at: usize = 0;
    let mut n: usize = 0;
    let mut count: usize = 0;
    loop {
        let quick = quick::quick_token(s, at);
        if quick.number != 0 {
            let end = quick.end;
            if store.len() - n < ROW {
                return Err(no_room(count, Span { start: at, end }));
            }
            put(store, n, quick.number, at, end);
            n += ROW;
            count += 1;
            at = end;
        } else {
            let answer = next_token(s, reading, at);
            let Ok(token) = answer else {
                return Err(Stopped {
                    count,
                    refusal: answer.unwrap_err(),
                });
            };
            let end = token.span.end;
            if end == at {
                return Ok(count);
            }
            if store.len() - n < ROW {
                return Err(no_room(count, token.span));
            }
            put(store, n, numbers::number_of(token.kind), at, end);
            n += ROW;
            count += 1;
            at = end;
        }
    }
}

pub fn list(s: &[u8], reading: Reading, store: &mut [u32]) -> Result<usize, Stopped>
    ensures { (result ≡ list_of reading s.now (length store.old))
        × (store.new ≡ sets store.old 0 (stored_of reading s.now (length store.old))) }
{
    source_test::test_source(s)?;
    list_tokens(s, reading, store)
}
