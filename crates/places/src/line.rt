// Lines and columns, counted from a place on: a source with many findings is walked once.
ghost use Rattle.std.specs.Prelude.{◌+◌, ◌-◌, ◌<◌, ◌≡◌, length};
ghost use Rattle.places.specs.Lines.{Stands, begins, column_of, count_in, is_feed, part_of, start_of};
ghost use Rattle.text.specs.Utf8.{from};

use text::Scalar;

// Line and column count from 1.
#[derive(Clone, Copy)]
pub struct Place {
    pub at: usize,
    pub line: usize,
    pub column: usize,
}

// It stands in every source (`origin_stands`).
pub fn origin() -> Place
    ensures { (result.at ≡ 0) × (result.line ≡ 1) × (result.column ≡ 1) }
{
    Place {
        at: 0,
        line: 1,
        column: 1,
    }
}

// From one place to before another; nothing where that is no part of the slice.
pub fn part(s: &[u8], from: usize, to: usize) -> &[u8]
    ensures { result.now ≡ part_of s.now from to }
{
    s.get(from..to).unwrap_or(&[])
}

// How many LF stand from one place to before another.
pub fn feeds(s: &[u8], from: usize, to: usize) -> usize
    ensures { result ≡ count_in is_feed s.now from to }
{
    (from..to).filter(|i| text::byte_at(s, *i) == b'\n').count()
}

// How many scalars begin there.
pub fn scalars(s: &[u8], from: usize, to: usize) -> usize
    ensures { result ≡ count_in begins s.now from to }
{
    (from..to)
        .filter(|i| !text::is_tail(text::byte_at(s, *i)))
        .count()
}

// The place after the last LF before a place.
pub fn line_start(s: &[u8], at: usize) -> usize
    ensures { result ≡ start_of s.now at }
{
    let feed = (0..at).rev().find(|i| text::byte_at(s, *i) == b'\n');
    match feed {
        Some(i) => i + 1,
        None => 0,
    }
}

// The place after the scalar at a place, or after the byte where no scalar stands.
pub fn after(s: &[u8], at: usize) -> usize
    ensures { at < length s.now → at < result }
{
    if s.len() <= at {
        return at;
    }
    let Some(Scalar { next, .. }) = text::scalar_at(s, at) else {
        return at + 1;
    };
    if at < next {
        return next;
    }
    at + 1
}

fn column(s: &[u8], at: usize) -> usize
    ensures { at < 0x40000000 → result ≡ column_of s.now at }
{
    scalars(s, line_start(s, at), at).saturating_add(1)
}

// Another place of the source, counted from one that stands with its line and column.
pub fn moved(s: &[u8], p: Place, to: usize) -> Place
    ensures { (result.at ≡ to) × (p.at < 0x40000000 → to < 0x40000000 → Stands s.now p → Stands s.now result) }
{
    if to < p.at {
        return Place {
            at: to,
            line: p.line.saturating_sub(feeds(s, to, p.at)),
            column: column(s, to),
        };
    }
    let count = feeds(s, p.at, to);
    if count == 0 {
        return Place {
            at: to,
            line: p.line,
            column: p.column.saturating_add(scalars(s, p.at, to)),
        };
    }
    Place {
        at: to,
        line: p.line.saturating_add(count),
        column: column(s, to),
    }
}
