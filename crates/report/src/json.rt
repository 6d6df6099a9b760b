// A finding as one JSON object on a line.
use crate::finding::{Finding, Matter};
use crate::source::Source;
use buffer::Page;
use places::{Place, moved};
use std::fmt::Write;
use token::Reason;

fn put_escaped(out: &mut Page, byte: u8) {
    match byte {
        ..0x20 => {
            let _ = write!(out, "\\u00{byte:02x}");
        }
        b'"' | b'\\' => {
            out.put(b'\\');
            out.put(byte);
        }
        _ => out.put(byte),
    }
}

fn put_number(out: &mut Page, key: &str, number: usize) {
    let _ = write!(out, ",\"{key}\":{number}");
}

fn put_file(out: &mut Page, file: &[u8]) {
    out.put_bytes(b"{\"file\":\"");
    for byte in file {
        put_escaped(out, *byte);
    }
    out.put(b'"');
}

fn put_places(out: &mut Page, first: Place, last: Place) {
    put_number(out, "line", first.line);
    put_number(out, "column", first.column);
    put_number(out, "end_line", last.line);
    put_number(out, "end_column", last.column);
}

fn put_code(out: &mut Page, matter: Matter) {
    let _ = write!(out, ",\"severity\":\"{}\",\"code\":\"", matter.severity());
    wordings::put_name(out, matter.texts());
    out.put(b'"');
}

fn put_numbers(out: &mut Page, f: Finding) {
    put_number(out, "number", f.matter.number() as usize);
    put_number(out, "start", f.start);
    put_number(out, "end", f.end);
    put_number(out, "from", f.from);
    put_number(out, "to", f.to);
}

// The store is the checker's own: what it has no room for is told in other words.
fn put_texts(out: &mut Page, matter: Matter) {
    if let Matter::Refusal {
        reason: Reason::NoRoom,
    } = matter
    {
        out.put_bytes(b",\"message\":\"more than 1000 findings\",\"help\":\"mend these first\"}\n");
        return;
    }
    out.put_bytes(b",\"message\":\"");
    wordings::put_what(out, matter.texts());
    out.put_bytes(b"\",\"help\":\"");
    wordings::put_cure(out, matter.texts());
    out.put_bytes(b"\"}\n");
}

pub fn put_json(out: &mut Page, source: Source, p: Place, f: Finding) {
    put_file(out, source.name);
    put_places(out, p, moved(source.bytes, p, f.end));
    put_code(out, f.matter);
    put_numbers(out, f);
    put_texts(out, f.matter);
}
