// What will stand in front once a state is filled, seen before anything is written, and its way to the store.
ghost use Rattle.std.specs.Prelude.{◌+◌, ◌*◌, ◌≤◌, ◌<◌, ◌≡◌, ◌++◌, length};
ghost use Rattle.std.proofs.lemmas.List.Edits.{sets};
ghost use Rattle.ahead.specs.View.{nums_of, view_of};
ghost use Rattle.looks.specs.Buffer.{words_of};
ghost use Rattle.looks.specs.Calls.{with_nums};
ghost use Rattle.looks.specs.Front.{Fronted, less_held, less_waiting, wait_words};
ghost use Rattle.looks.specs.Numbered.{token_count};

use crate::emit::{
    Words, eof_words, put_waiting, put_words, slot, take_held, take_waiting, token_at,
};
use crate::fill::white_at;
use crate::list::{count_of, next_dark, wide};
use ahead::{Ahead, Nums};

// How many tokens of white space are emitted before it, and the token, or the end-of-file token.
#[derive(Clone, Copy)]
pub struct Front {
    pub white: usize,
    pub words: Words,
}

// By numbers that are planned with, over the rings of the state.
pub(crate) fn front_of(nums: Nums, state: &Ahead, list: &[u32]) -> Front
    requires { (nums.next ≤ token_count list.now) × (nums.wait_len ≤ 256) }
    ensures { Fronted list.now nums state.now.held state.now.counts result.white (words_of result.words) × (result.white ≤ 8589934592) × (length state.now.held ≡ 8) × (length state.now.counts ≡ 8) }
{
    if nums.held_len != 0 {
        let first = slot::<8>(nums.held_at, 0);
        return Front {
            white: wide(state.counts[first]),
            words: token_at(list, state.held[first]),
        };
    }
    let at = next_dark(list, nums.next);
    let white = wide(white_at(nums.keep, nums.next, at));
    if at < count_of(list) {
        return Front {
            white,
            words: token_at(list, at),
        };
    }
    Front {
        white: nums.wait_len + white,
        words: eof_words(list),
    }
}

// The front goes to the store at `at`.
pub(crate) fn emit_front(
    state: &mut Ahead,
    white: u32,
    words: Words,
    list: &[u32],
    out: &mut [u32],
    at: usize,
)
    requires { (white ≤ (nums_of state.old.nums).wait_len) × (at + white * 3 + 3 ≤ length out.old) }
    ensures { (view_of state.new ≡ with_nums (less_held (less_waiting white (nums_of state.old.nums))) (view_of state.old))
        × (out.new ≡ sets out.old at (wait_words white list.now state.old.waiting (nums_of state.old.nums).wait_at ++ words_of words)) }
{
    let count = wide(white);
    put_waiting(state, count, list, out, at);
    put_words(words, out, at + count * 3);
    take_waiting(state, white);
    take_held(state);
}

// The same at the front of the store, for speed: mostly nothing waits before the token. It has one caller, so the compiler inlines it.
pub(crate) fn emit_first(state: &mut Ahead, white: u32, words: Words, list: &[u32], out: &mut [u32])
    requires { (white ≤ (nums_of state.old.nums).wait_len) × ((nums_of state.old.nums).wait_at < 256) × (white * 3 + 3 ≤ length out.old) }
    ensures { (view_of state.new ≡ with_nums (less_held (less_waiting white (nums_of state.old.nums))) (view_of state.old))
        × (out.new ≡ sets out.old 0 (wait_words white list.now state.old.waiting (nums_of state.old.nums).wait_at ++ words_of words)) }
{
    if white == 0 {
        put_words(words, out, 0);
        take_held(state);
        return;
    }
    emit_front(state, white, words, list, out, 0);
}
