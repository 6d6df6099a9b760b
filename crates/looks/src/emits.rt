// The calls that emit: what is to be written is known before anything is, so that a refusal changes nothing.
ghost use Rattle.std.specs.Prelude.{◌+◌, ◌*◌, ◌≤◌, ◌≡◌, length};
ghost use Rattle.std.proofs.lemmas.List.Edits.{sets};
ghost use Rattle.ahead.specs.View.{nums_of, view_of};
ghost use Rattle.looks.specs.Calls.{advance_by, advance_refusal, advance_words, advanced, array_by, array_refusal, array_words, bump_by, bump_if_by, flush_by};
ghost use Rattle.looks.specs.Sound.{count_sum};

use crate::emit::{count_before, nth_words, put_waiting, put_words, take_waiting, white_now};
use crate::fill::gathers_at;
use crate::front::{emit_first, emit_front};
use crate::list::wide;
use crate::look::{Done, Stop};
use crate::ready::{fill_refusal, lacks};
use crate::rooms::{Want, front_ready};
use crate::sound::{counts_sum, sound};
use ahead::{Ahead, HELD_AT, HELD_LEN};

pub fn bump(state: &mut Ahead, tested: u32, list: &[u32], out: &mut [u32]) -> Result<Done, Stop>
    ensures { (view_of state.new ≡ (bump_by tested list.now (length out.old) (view_of state.old)).state)
        × (result ≡ (bump_by tested list.now (length out.old) (view_of state.old)).answer)
        × (out.new ≡ sets out.old 0 (bump_by tested list.now (length out.old) (view_of state.old)).written) }
{
    front_ready(state, tested, Want::Both, list, out.len())?;
    let white = white_now(state);
    let words = nth_words(state, 0, list);
    emit_first(state, white, words, list, out);
    Ok(Done {
        count: wide(white) + 1,
        value: words.kind,
        start: words.start,
        end: words.end,
    })
}

pub fn flush_ws(state: &mut Ahead, tested: u32, list: &[u32], out: &mut [u32]) -> Result<Done, Stop>
    ensures { (view_of state.new ≡ (flush_by tested list.now (length out.old) (view_of state.old)).state)
        × (result ≡ (flush_by tested list.now (length out.old) (view_of state.old)).answer)
        × (out.new ≡ sets out.old 0 (flush_by tested list.now (length out.old) (view_of state.old)).written) }
{
    front_ready(state, tested, Want::White, list, out.len())?;
    let white = white_now(state);
    let words = nth_words(state, 0, list);
    put_waiting(state, wide(white), list, out, 0);
    state.counts[wide(state.nums[HELD_AT]) % 8] = 0;
    take_waiting(state, white);
    Ok(Done {
        count: wide(white),
        value: 0,
        start: words.start,
        end: words.start,
    })
}

pub fn bump_if(
    state: &mut Ahead,
    tested: u32,
    kind: u32,
    list: &[u32],
    out: &mut [u32],
) -> Result<Done, Stop>
    ensures { (view_of state.new ≡ (bump_if_by tested list.now kind (length out.old) (view_of state.old)).state)
        × (result ≡ (bump_if_by tested list.now kind (length out.old) (view_of state.old)).answer)
        × (out.new ≡ sets out.old 0 (bump_if_by tested list.now kind (length out.old) (view_of state.old)).written) }
{
    front_ready(state, tested, Want::Of(kind), list, out.len())?;
    let words = nth_words(state, 0, list);
    if words.kind != kind {
        return Ok(Done::default());
    }
    let white = white_now(state);
    emit_front(state, white, words, list, out, 0);
    Ok(Done {
        count: wide(white) + 1,
        value: 1,
        ..Done::default()
    })
}

fn advance_refusal(state: &Ahead, tested: u32, n: usize, list: &[u32]) -> Result<(), Stop>
    ensures { result ≡ advance_refusal tested list.now n (view_of state.now) }
{
    if !sound(state, tested, list) {
        return Err(Stop::Faulty);
    }
    if wide(state.nums[HELD_LEN]) < n {
        return Err(Stop::PastHeld);
    }
    Ok(())
}

fn emit_held(state: &mut Ahead, n: usize, list: &[u32], out: &mut [u32])
    requires { (n ≤ (nums_of state.old.nums).held_len) × (count_sum state.old.counts n (nums_of state.old.nums).held_at ≤ (nums_of state.old.nums).wait_len) × (count_sum state.old.counts n (nums_of state.old.nums).held_at * 3 + n * 3 ≤ length out.old) }
    ensures { (view_of state.new ≡ advanced n (view_of state.old))
        × (out.new ≡ sets out.old 0 (advance_words list.now n (view_of state.old))) }
{
    let mut at: usize = 0;
    for _ in 0..n {
        let white = count_before(state, 0);
        let words = nth_words(state, 0, list);
        emit_front(state, white, words, list, out, at);
        at += wide(white) * 3 + 3;
    }
}

pub fn advance(
    state: &mut Ahead,
    tested: u32,
    n: usize,
    list: &[u32],
    out: &mut [u32],
) -> Result<Done, Stop>
    ensures { (view_of state.new ≡ (advance_by tested list.now n (length out.old) (view_of state.old)).state)
        × (result ≡ (advance_by tested list.now n (length out.old) (view_of state.old)).answer)
        × (out.new ≡ sets out.old 0 (advance_by tested list.now n (length out.old) (view_of state.old)).written) }
{
    advance_refusal(state, tested, n, list)?;
    let count = counts_sum(&state.counts, n, wide(state.nums[HELD_AT])) + n;
    if out.len() / 3 < count {
        return Err(Stop::StoreShort);
    }
    emit_held(state, n, list, out);
    Ok(Done {
        count,
        ..Done::default()
    })
}

fn array_refusal(state: &Ahead, tested: u32, n: usize, list: &[u32]) -> Result<(), Stop>
    ensures { result ≡ array_refusal tested list.now n (view_of state.now) }
{
    if 0 < n {
        return fill_refusal(state, tested, n - 1, list);
    }
    if !sound(state, tested, list) {
        return Err(Stop::Faulty);
    }
    Ok(())
}

fn put_array(state: &Ahead, n: usize, list: &[u32], out: &mut [u32])
    requires { n * 3 ≤ length out.old }
    ensures { out.new ≡ sets out.old 0 (array_words list.now n 0 (nums_of state.now.nums) state.now.held) }
{
    for i in 0..n {
        let words = nth_words(state, i, list);
        put_words(words, out, i * 3);
    }
}

pub fn array(
    state: &mut Ahead,
    tested: u32,
    n: usize,
    list: &[u32],
    out: &mut [u32],
) -> Result<Done, Stop>
    ensures { (view_of state.new ≡ (array_by tested list.now n (length out.old) (view_of state.old)).state)
        × (result ≡ (array_by tested list.now n (length out.old) (view_of state.old)).answer)
        × (out.new ≡ sets out.old 0 (array_by tested list.now n (length out.old) (view_of state.old)).written) }
{
    array_refusal(state, tested, n, list)?;
    if out.len() / 3 < n {
        return Err(Stop::StoreShort);
    }
    let lacking = lacks(state, n);
    gathers_at(state, lacking, list);
    put_array(state, n, list, out);
    Ok(Done {
        count: n,
        ..Done::default()
    })
}
