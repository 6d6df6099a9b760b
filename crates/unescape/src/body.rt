// A whole body: measured first, so that a refusal writes nothing, and then written.
ghost use Rattle.std.specs.Prelude.{◌+◌, ◌≤◌, ◌≡◌, true, drop, length, take};
ghost use Rattle.std.proofs.lemmas.List.Edits.{sets};
ghost use Rattle.encoding.specs.Encode.{padded};
ghost use Rattle.items.specs.Items.{is_bytes, item_bytes};
ghost use Rattle.runs.specs.Runs.{bare_of};
ghost use Rattle.source_test.specs.Source.{sound_to};
ghost use Rattle.text.specs.Utf8.{rest};
ghost use Rattle.unescape.specs.Bodies.{body_of, items_bytes, refused_at, unescape_of, unescaped_of, wrong_count};
ghost use Rattle.unescape.specs.Measures.{Writable, measured_of};

use crate::long::long_at;
use encoding::Encoded;
use escapes::Escape;
use items::{Form, item_at};
use runs::{begin_at, escaped_at, run_end, short_escape, short_limit};
use text::Scalar;
use token::{Reason, Refusal, Span};

// The bytes of an item.
fn item_bytes(form: Form, item: u32) -> Encoded
    requires { is_bytes form ≡ true → item ≤ 0xff }
    ensures { result ≡ padded (item_bytes form item) }
{
    if form.is_bytes() {
        let bytes = [item as u8, 0, 0, 0];
        return Encoded { len: 1, bytes };
    }
    encoding::encode(item)
}

// How many bytes an item takes.
fn item_len(form: Form, item: u32) -> usize
    requires { is_bytes form ≡ true → item ≤ 0xff }
    ensures { result ≡ length (item_bytes form item) }
{
    let encoded = item_bytes(form, item);
    encoded.len
}

fn refuse(reason: Reason, start: usize, end: usize) -> Result<usize, Refusal>
    ensures { result ≡ refused_at reason start end }
{
    Err(Refusal {
        reason,
        span: Span { start, end },
        reached: end,
    })
}

// How many bytes the items of a body take, or its first fault. Run by run, and what stands between two runs: an escape of two bytes first, since most
// are such, then those by value.
fn measure(s: &[u8], form: Form) -> Result<usize, Refusal>
    requires { sound_to s.now ≡ length s.now }
    ensures { result ≡ measured_of form 0 (body_of form 0 (rest s.now 0) 0) }
{
    let bytes = form.is_bytes();
    let limit = short_limit(form.is_template());
    let mut at: usize = 0;
    let mut count: usize = 0;
    loop {
        let p = run_end(s, at, bytes);
        count += p - at;
        if s.len() <= p {
            return Ok(count);
        }
        if short_escape(escaped_at(s, p)) < limit {
            count += 1;
            at = p + 2;
        } else {
            let long = long_at(s, p, form);
            if 0 < long {
                count += item_len(form, long / 16);
                at = p + (long % 16) as usize;
            } else {
                match begin_at(s, p, form) {
                    Escape::Item { value, next } => {
                        count += item_len(form, value);
                        at = next;
                    }
                    Escape::Skipped { next } => at = next,
                    Escape::Bad { reason, next } => return refuse(reason, p, next),
                }
            }
        }
    }
}

// The first `len` of four bytes, to the place n on. No loop: the compiler would make it a call of C's memcpy.
fn put(out: &mut [u8], n: usize, bytes: &[u8; 4], len: usize)
    requires { (len ≤ 4) × (len ≤ length bytes.now) × (n + len ≤ length out.old) }
    ensures { out.new ≡ sets out.old n (take len bytes.now) }
{
    if len < 1 {
        return;
    }
    out[n] = bytes[0];
    if len < 2 {
        return;
    }
    out[n + 1] = bytes[1];
    if len < 3 {
        return;
    }
    out[n + 2] = bytes[2];
    if len < 4 {
        return;
    }
    out[n + 3] = bytes[3];
}

// An item's bytes, to the place n on; how many they are.
fn put_item(out: &mut [u8], n: usize, form: Form, item: u32) -> usize
    requires { (is_bytes form ≡ true → item ≤ 0xff) × (n + length (item_bytes form item) ≤ length out.old) }
    ensures len { result ≡ length (item_bytes form item) }
    ensures bytes { out.new ≡ sets out.old n (item_bytes form item) }
{
    let encoded = item_bytes(form, item);
    let len = encoded.len;
    let bytes = encoded.bytes;
    put(out, n, &bytes, len);
    len
}

// The bytes before the next backslash, to the place n on; the backslash's place, or the end. Both places by hand: what only copies would become a call
// of C's memcpy.
fn copy_run(s: &[u8], at: usize, out: &mut [u8], n: usize) -> usize
    requires { n + length (bare_of (drop at s.now)) ≤ length out.old }
    ensures end { result ≡ at + length (bare_of (drop at s.now)) }
    ensures bytes { out.new ≡ sets out.old n (bare_of (drop at s.now)) }
{
    let mut p = at;
    let mut m = n;
    while p < s.len() {
        let b = s[p];
        if b == 0x5c {
            return p;
        }
        out[m] = b;
        p += 1;
        m += 1;
    }
    p
}

// The items of a body without a fault, written from the first byte on: so what stands before a backslash is copied in every form.
fn write_items(s: &[u8], form: Form, out: &mut [u8])
    requires { Writable form s.now (length out.old) }
    ensures { out.new ≡ sets out.old 0 (items_bytes form (body_of form 0 (rest s.now 0) 0).items) }
{
    let limit = short_limit(form.is_template());
    let mut at: usize = 0;
    let mut n: usize = 0;
    loop {
        let p = copy_run(s, at, out, n);
        n += p - at;
        if s.len() <= p {
            return;
        }
        let short = short_escape(escaped_at(s, p));
        if short < limit {
            out[n] = short % 128 - 1;
            n += 1;
            at = p + 2;
        } else {
            let long = long_at(s, p, form);
            if 0 < long {
                n += put_item(out, n, form, long / 16);
                at = p + (long % 16) as usize;
            } else {
                match begin_at(s, p, form) {
                    Escape::Item { value, next } => {
                        n += put_item(out, n, form, value);
                        at = next;
                    }
                    Escape::Skipped { next } => at = next,
                    Escape::Bad { .. } => return,
                }
            }
        }
    }
}

fn count_items(s: &[u8], form: Form) -> usize
    ensures { result ≡ length (body_of form 0 (rest s.now 0) 0).items }
{
    let mut at: usize = 0;
    let mut n: usize = 0;
    loop {
        let Some(Scalar { value, next }) = text::scalar_at(s, at) else {
            return n;
        };
        match item_at(s, form, value, next) {
            Escape::Item {
                value: _,
                next: end,
            } => {
                n += 1;
                at = end;
            }
            Escape::Skipped { next: end } => at = end,
            Escape::Bad { .. } => return n,
        }
    }
}

// A char or byte body that gives other than one item. Items are counted for these two alone.
fn wrong_count(s: &[u8], form: Form) -> bool
    ensures { result ≡ wrong_count form (length (body_of form 0 (rest s.now 0) 0).items) }
{
    form.is_single() && count_items(s, form) != 1
}

// A body that is well-formed.
fn unescape_sound(body: &[u8], form: Form, out: &mut [u8]) -> Result<usize, Refusal>
    requires { sound_to body.now ≡ length body.now }
    ensures answer { result ≡ (unescaped_of form body.now (length out.old)).answer }
    ensures bytes { out.new ≡ sets out.old 0 (unescaped_of form body.now (length out.old)).bytes }
{
    let count = measure(body, form)?;
    if wrong_count(body, form) {
        return refuse(Reason::NotOneItem, 0, body.len());
    }
    if out.len() < count {
        return refuse(Reason::OutputShort, 0, body.len());
    }
    write_items(body, form, out);
    Ok(count)
}

pub fn unescape(body: &[u8], form: Form, out: &mut [u8]) -> Result<usize, Refusal>
    ensures answer { result ≡ (unescape_of form body.now (length out.old)).answer }
    ensures bytes { out.new ≡ sets out.old 0 (unescape_of form body.now (length out.old)).bytes }
{
    source_test::test_source(body)?;
    unescape_sound(body, form, out)
}
