// Document 01's lister: `KIND START END` a token, then `refused NO START END` or `end COUNT`; token by token, without a store.
// Every function here is safe and ends, and each line is made by `lines`, which promises its bytes. What reaches standard output no contract can say: runs show it.
#![tactic(auto)]

#[cfg(test)]
mod tests;

ghost use Rattle.std.specs.Prelude.{IfErr, ◌≡◌, true};
ghost use Rattle.token.specs.Named.{is_named};
ghost use Rattle.token.specs.Reads.{number_in};

use buffer::Writer;
use lines::Line;
use readers::Reading;
use token::{Refusal, Token};

fn put_line<const ROOM: usize>(out: &mut Writer<ROOM>, line: &Line) {
    out.put_bytes(line.as_str().as_bytes());
}

// How many they are. Each token goes past its start, so the bytes left fall.
fn put_tokens<const ROOM: usize>(
    out: &mut Writer<ROOM>,
    s: &[u8],
    reading: Reading,
) -> Result<usize, Refusal>
    ensures { IfErr result (λ refusal. is_named (number_in refusal) ≡ true) }
{
    let mut at: usize = 0;
    let mut count: usize = 0;
    loop {
        let answer = lexer::next(s, reading, at);
        let Ok(token) = answer else {
            return Err(answer.unwrap_err());
        };
        let Token { kind, span } = token;
        let end = span.end;
        if end == at {
            return Ok(count);
        }
        put_line(
            out,
            &lines::three(numbers::number_of(kind), span.start, end),
        );
        count += 1;
        at = end;
    }
}

fn put_source<const ROOM: usize>(
    out: &mut Writer<ROOM>,
    s: &[u8],
    reading: Reading,
) -> Result<usize, Refusal>
    ensures { IfErr result (λ refusal. is_named (number_in refusal) ≡ true) }
{
    source_test::test_source(s)?;
    put_tokens(out, s, reading)
}

// The refusal is put too.
pub fn list<const ROOM: usize>(
    out: &mut Writer<ROOM>,
    s: &[u8],
    reading: Reading,
) -> Result<(), Refusal>
    ensures { IfErr result (λ refusal. is_named (number_in refusal) ≡ true) }
{
    match put_source(out, s, reading) {
        Ok(count) => {
            put_line(out, &lines::end_line(count));
            Ok(())
        }
        Err(refusal) => {
            let span = refusal.span;
            put_line(
                out,
                &lines::refused_line(u32::from(refusal.reason), span.start, span.end),
            );
            Err(refusal)
        }
    }
}
