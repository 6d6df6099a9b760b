// As much of a line as is shown: all of it, or a part around a mark.
use crate::line::{after, scalars};

const WHOLE: usize = 100;

const CUT: usize = 96;

const HALF: usize = 48;

// What is shown of a line, from one place to before another, and whether something is cut on either side.
#[derive(Clone, Copy)]
pub struct Window {
    pub from: usize,
    pub to: usize,
    pub left: bool,
    pub right: bool,
}

// Where some scalars end, and how many they are.
#[derive(Clone, Copy)]
pub struct Reach {
    pub to: usize,
    pub count: usize,
}

// A line ends before LF, before CR LF and with the source.
fn ends(s: &[u8], at: usize) -> bool {
    matches!(
        s.get(at..),
        None | Some([] | [b'\n', ..] | [b'\r', b'\n', ..])
    )
}

// So many scalars before a place, as far as the line goes.
pub fn back(s: &[u8], at: usize, most: usize) -> usize {
    let mut left = most;
    for i in (0..at).rev() {
        let byte = text::byte_at(s, i);
        if byte == b'\n' || left == 0 {
            return i + 1;
        }
        if !text::is_tail(byte) {
            left -= 1;
        }
    }
    0
}

// So many scalars from a place on, as far as the line goes. A byte that is no part of a scalar counts as one.
pub fn ahead(s: &[u8], at: usize, most: usize) -> Reach {
    let mut to = at;
    for count in 0..most {
        if ends(s, to) {
            return Reach { to, count };
        }
        to = after(s, to);
    }
    Reach { to, count: most }
}

// The line that a place stands on, cut to the scalars around it where it is long.
pub fn around(s: &[u8], at: usize) -> Window {
    let from = back(s, at, WHOLE + 1);
    let before = scalars(s, from, at);
    let rest = ahead(s, at, WHOLE + 1);
    if before <= WHOLE && rest.count <= WHOLE - before {
        return Window {
            from,
            to: rest.to,
            left: false,
            right: false,
        };
    }
    let kept = before.min(CUT - rest.count.min(HALF));
    let shown = ahead(s, at, CUT - kept.min(CUT));
    Window {
        from: back(s, at, kept),
        to: shown.to,
        left: kept < before,
        right: shown.count < rest.count,
    }
}
