// A source with x over every byte inside its strings, byte strings, comments and templates, in a lent buffer. One pass, each token read once.
#![tactic(auto)]

ghost use Rattle.std.specs.Prelude.{◌≤◌, ◌≡◌, [], Err, ltb, length};
ghost use Rattle.std.proofs.lemmas.List.Edits.{sets};
ghost use Rattle.std.proofs.Math.Seq.{slice};
ghost use Rattle.families.specs.Tokens.{tokens_at};
ghost use Rattle.laws.specs.Bools.{pick};
ghost use Rattle.outline.specs.Covered.{covered, covers};
ghost use Rattle.outline.specs.Outline.{outline_answer, outline_of, outline_written, outlined, paint};
ghost use Rattle.readers.specs.Rules.{rules_of};
ghost use Rattle.token.specs.Reads.{point_refusal};
ghost use Rattle.token.specs.declared.reason.Reason.TheVariants.{NoRoom};

use readers::Reading;
use token::{Reason, Refusal, Token};

// Where the inside of a piece begins, and how many bytes stay after it.
#[derive(Clone, Copy)]
struct Inside {
    lo: usize,
    kept: usize,
}

// The byte b, or x where it lies inside; `left` bytes of its piece are left from it on.
fn shade(b: u8, inside: Option<Inside>, i: usize, left: usize) -> u8
    ensures { result ≡ pick (covered inside i left) 0x78 b }
{
    match inside {
        Some(Inside { lo, kept }) if lo <= i && kept < left => 0x78,
        _ => b,
    }
}

// The bytes of a source from a up to e, those inside as x.
fn fill(s: &[u8], out: &mut [u8], a: usize, e: usize, inside: Option<Inside>)
    requires { (e ≤ length s.now) × (e ≤ length out.old) }
    ensures { out.new ≡ sets out.old a (paint (covers inside e) (slice a e s.now) a) }
{
    for i in a..e {
        out[i] = shade(s[i], inside, i, e - i);
    }
}

fn outline_tokens(s: &[u8], reading: Reading, out: &mut [u8]) -> Result<(), Refusal>
    requires { length s.now ≤ length out.old }
    ensures { (result ≡ outline_answer (tokens_at (rules_of reading) s.now 0)) × (out.new ≡ sets out.old 0 (outlined (rules_of reading) s.now)) }
{
    let mut at: usize = 0;
    loop {
        let answer = lexer::next(s, reading, at);
        let Ok(token) = answer else {
            fill(s, out, at, s.len(), None);
            return Err(answer.unwrap_err());
        };
        let Token { kind, span } = token;
        let end = span.end;
        if end == at {
            fill(s, out, at, s.len(), None);
            return Ok(());
        }
        let inside = if marks::has_inside(kind) {
            Some(Inside {
                lo: at + marks::opens(kind),
                kept: marks::closes(kind),
            })
        } else {
            None
        };
        fill(s, out, at, end, inside);
        at = end;
    }
}

fn outline_fitting(s: &[u8], reading: Reading, out: &mut [u8]) -> Result<(), Refusal>
    ensures { (result ≡ pick (ltb (length out.old) (length s.now)) (Err (point_refusal NoRoom 0)) (outline_answer (tokens_at (rules_of reading) s.now 0)))
        × (out.new ≡ sets out.old 0 (pick (ltb (length out.old) (length s.now)) [] (outlined (rules_of reading) s.now))) }
{
    if out.len() < s.len() {
        return Err(token::point(Reason::NoRoom, 0));
    }
    outline_tokens(s, reading, out)
}

pub fn outline(s: &[u8], reading: Reading, out: &mut [u8]) -> Result<(), Refusal>
    ensures { (result ≡ outline_of reading s.now (length out.old)) × (out.new ≡ sets out.old 0 (outline_written reading s.now (length out.old))) }
{
    source_test::test_source(s)?;
    outline_fitting(s, reading, out)
}
