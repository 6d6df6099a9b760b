// The reader of the stored token list: records of 11 bytes into three words a token.
// It answers the first refusal and then writes nothing; later words keep their content.
ghost use Rattle.std.specs.Prelude.{◌+◌, ◌%◌, ◌≤◌, ◌≡◌, length};
ghost use Rattle.std.proofs.lemmas.List.Edits.{sets};
ghost use Rattle.storage.specs.Reader.{bytes_check, list_words, read_by, read_of, stored_rows, told_by};

use crate::{MARK_FIRST, MARK_SECOND, RECORD};
use rows::{ROW, Record, faulty};
use token::{Reason, Refusal};

// What a record says, its numbers with their lowest bytes first. Its mark is not looked at.
fn record_in(bytes: &[u8; RECORD]) -> Record
    ensures { result ≡ told_by bytes.now }
{
    let [_, _, kind, a, b, c, d, e, f, g, h] = *bytes;
    Record {
        kind: u32::from(kind),
        start: u32::from_le_bytes([a, b, c, d]),
        end: u32::from_le_bytes([e, f, g, h]),
    }
}

// As `rows::check_list`, but that a record has a mark, and stands in bytes.
fn check_bytes(bytes: &[u8]) -> Result<(), Refusal>
    ensures { result ≡ bytes_check bytes.now }
{
    let (records, rest) = bytes.as_chunks::<RECORD>();
    if !rest.is_empty() {
        return faulty(Reason::BadLength, 0);
    }
    let mut last: u32 = 0;
    for (n, bytes) in records.iter().enumerate() {
        if bytes[0] != MARK_FIRST || bytes[1] != MARK_SECOND {
            return faulty(Reason::BadMark, n);
        }
        let record = record_in(bytes);
        record.check(n, last)?;
        last = record.end;
    }
    Ok(())
}

fn put_words(bytes: &[u8], out: &mut [u32])
    requires { (length bytes.now % 11 ≡ 0) × (length (list_words (stored_rows bytes.now)) ≤ length out.old) }
    ensures { out.new ≡ sets out.old 0 (list_words (stored_rows bytes.now)) }
{
    let (records, _) = bytes.as_chunks::<RECORD>();
    for (n, bytes) in records.iter().enumerate() {
        let Record { kind, start, end } = record_in(bytes);
        let at = n * ROW;
        out[at] = kind;
        out[at + 1] = start;
        out[at + 2] = end;
    }
}

pub fn read(bytes: &[u8], out: &mut [u32]) -> Result<usize, Refusal>
    ensures { (result ≡ read_of bytes.now (length out.old))
        × (out.new ≡ sets out.old 0 (read_by bytes.now (length out.old))) }
{
    check_bytes(bytes)?;
    let records = bytes.len() / RECORD;
    if out.len() / ROW < records {
        return Err(token::point(Reason::NoRoom, 0));
    }
    put_words(bytes, out);
    Ok(records * ROW)
}
