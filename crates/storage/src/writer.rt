// The writer of the stored token list: three words a token into records of 11 bytes.
// It answers the first refusal and then writes nothing; later bytes keep their content.
ghost use Rattle.std.specs.Prelude.{◌+◌, ◌%◌, ◌≤◌, ◌≡◌, length};
ghost use Rattle.std.proofs.lemmas.List.Edits.{sets};
ghost use Rattle.rows.specs.Rows.{list_rows};
ghost use Rattle.storage.specs.Writer.{record_of, records_of, u32_bytes, write_of, written_by};

use crate::{MARK_FIRST, MARK_SECOND, RECORD};
use rows::ROW;
use token::{Reason, Refusal};

fn low_byte(w: u32) -> u8
    ensures { result ≡ w % 256 }
{
    (w % 256) as u8
}

// Byte by byte, since a record that is copied to its place from an array goes through memory: docs/SPEED.md has what that costs.
fn put_word(out: &mut [u8], at: usize, w: u32)
    requires { at + 4 ≤ length out.old }
    ensures { out.new ≡ sets out.old at (u32_bytes w) }
{
    out[at] = low_byte(w);
    out[at + 1] = low_byte(w / 256);
    out[at + 2] = low_byte(w / 65536);
    out[at + 3] = low_byte(w / 16777216);
}

fn put_record(out: &mut [u8], at: usize, kind: u32, start: u32, end: u32)
    requires { at + 11 ≤ length out.old }
    ensures { out.new ≡ sets out.old at (record_of kind start end) }
{
    out[at] = MARK_FIRST;
    out[at + 1] = MARK_SECOND;
    out[at + 2] = low_byte(kind);
    put_word(out, at + 3, start);
    put_word(out, at + 7, end);
}

fn put_records(list: &[u32], out: &mut [u8])
    requires { (length list.now % 3 ≡ 0) × (length (records_of (list_rows list.now)) ≤ length out.old) }
    ensures { out.new ≡ sets out.old 0 (records_of (list_rows list.now)) }
{
    let (rows, _) = list.as_chunks::<ROW>();
    for (n, row) in rows.iter().enumerate() {
        let [kind, start, end] = *row;
        put_record(out, n * RECORD, kind, start, end);
    }
}

pub fn write(list: &[u32], out: &mut [u8]) -> Result<usize, Refusal>
    ensures { (result ≡ write_of list.now (length out.old))
        × (out.new ≡ sets out.old 0 (written_by list.now (length out.old))) }
{
    rows::check_list(list)?;
    let records = list.len() / ROW;
    if out.len() / RECORD < records {
        return Err(token::point(Reason::NoRoom, 0));
    }
    put_records(list, out);
    Ok(records * RECORD)
}
