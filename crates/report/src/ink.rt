// Colours of a terminal. Without an ink nothing is written.
use buffer::Page;

// Each by the digit of its code.
#[derive(Clone, Copy)]
pub(crate) enum Ink {
    Red = 1,
    Yellow = 3,
    Cyan = 6,
}

pub(crate) fn put_ink(out: &mut Page, ink: Option<Ink>) {
    if let Some(ink) = ink {
        out.put_bytes(b"\x1b[3");
        out.put(b'0' + ink as u8);
        out.put(b'm');
    }
}

pub(crate) fn put_bold(out: &mut Page, ink: Option<Ink>) {
    if ink.is_some() {
        out.put_bytes(b"\x1b[1m");
    }
}

pub(crate) fn put_reset(out: &mut Page, ink: Option<Ink>) {
    if ink.is_some() {
        out.put_bytes(b"\x1b[0m");
    }
}
