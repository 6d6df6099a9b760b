// The calls of a script, two bytes each: a code and an argument.
use lookahead::{
    Ahead, Done, Stop, advance, array, bump, bump_if, bump_while, fill, flush_ws, glued, is_eof,
    nth, nth_token, peek,
};
use std::fmt;

#[derive(Clone, Copy)]
pub enum Call {
    Fill(u8),
    Peek,
    Nth(u8),
    NthToken(u8),
    Glued(u8),
    FlushWs,
    Bump,
    BumpWhile(u8),
    BumpIf(u8),
    Array(u8),
    Advance(u8),
    IsEof,
}

// No kind has the numbers 0, 8 and those above 67.
fn is_kind(n: u8) -> bool {
    !matches!(n, 0 | 8 | 68..)
}

// A code above 11 is taken for 11. A call by a number that no kind has is outside of what is compared.
pub fn call_of(code: u8, n: u8) -> Option<Call> {
    match code {
        0 => Some(Call::Fill(n)),
        1 => Some(Call::Peek),
        2 => Some(Call::Nth(n)),
        3 => Some(Call::NthToken(n)),
        4 => Some(Call::Glued(n)),
        5 => Some(Call::FlushWs),
        6 => Some(Call::Bump),
        7 => is_kind(n).then_some(Call::BumpWhile(n)),
        8 => is_kind(n).then_some(Call::BumpIf(n)),
        9 => Some(Call::Array(n)),
        10 => Some(Call::Advance(n)),
        _ => Some(Call::IsEof),
    }
}

impl fmt::Display for Call {
    fn fmt<W: fmt::Write>(&self, f: &mut fmt::Formatter<W>) -> fmt::Result {
        f.write_str(match self {
            Call::Fill(_) => "fill",
            Call::Peek => "peek",
            Call::Nth(_) => "nth",
            Call::NthToken(_) => "nth_token",
            Call::Glued(_) => "glued",
            Call::FlushWs => "flush_ws",
            Call::Bump => "bump",
            Call::BumpWhile(_) => "bump_while",
            Call::BumpIf(_) => "bump_if",
            Call::Array(_) => "array",
            Call::Advance(_) => "advance",
            Call::IsEof => "is_eof",
        })
    }
}

pub fn answer(
    state: &mut Ahead,
    call: Call,
    list: &[u32],
    written: &mut [u32; 12288],
) -> Result<Done, Stop> {
    match call {
        Call::Fill(n) => fill(state, 0, n as usize, list),
        Call::Peek => peek(state, 0, list),
        Call::Nth(n) => nth(state, 0, n as usize, list),
        Call::NthToken(n) => nth_token(state, 0, n as usize, list),
        Call::Glued(n) => glued(state, 0, n as usize, list),
        Call::FlushWs => flush_ws(state, 0, list, written),
        Call::Bump => bump(state, 0, list, written),
        Call::BumpWhile(kind) => bump_while(state, 0, kind as u32, list, written),
        Call::BumpIf(kind) => bump_if(state, 0, kind as u32, list, written),
        Call::Array(n) => array(state, 0, n as usize, list, written),
        Call::Advance(n) => advance(state, 0, n as usize, list, written),
        Call::IsEof => is_eof(state, 0, list),
    }
}
