// What stands in front of a filled state, and its way to the store.
ghost use Rattle.std.specs.Prelude.{◌+◌, ◌*◌, ◌%◌, ◌≤◌, ◌<◌, ◌≡◌, get_or, length};
ghost use Rattle.std.proofs.lemmas.List.Edits.{sets};
ghost use Rattle.ahead.specs.View.{nums_of, view_of};
ghost use Rattle.looks.specs.Buffer.{ring_at, words_of};
ghost use Rattle.looks.specs.Calls.{with_nums};
ghost use Rattle.looks.specs.Front.{less_held, less_waiting, nth_of, wait_words, white_of};
ghost use Rattle.looks.specs.Numbered.{eof_words, token_at};

use crate::list::{kind_at, list_end, wide, word};
use ahead::{Ahead, HELD_AT, HELD_LEN, Nums, WAIT_AT, WAIT_LEN};

// The kind of the end-of-file token, by number.
pub(crate) const EOF: u32 = 67;

// A token as it stands in a list. Its kind is a number there, and in the calls for C.
#[derive(Clone, Copy)]
pub struct Words {
    pub kind: u32,
    pub start: u32,
    pub end: u32,
}

// The slot i after another in a ring.
pub(crate) fn slot<const SIZE: usize>(at: usize, i: usize) -> usize
    requires { (0 < SIZE) × (SIZE ≤ 256) }
    ensures { result ≡ (at + i) % SIZE }
{
    (at % SIZE + i % SIZE) % SIZE
}

pub(crate) fn token_at(list: &[u32], i: u32) -> Words
    ensures { words_of result ≡ token_at list.now i }
{
    let at = wide(i) * 3;
    if at + 2 < list.len() {
        return Words {
            kind: list[at],
            start: list[at + 1],
            end: list[at + 2],
        };
    }
    Words {
        kind: word(list, at),
        start: word(list, at + 1),
        end: word(list, at + 2),
    }
}

pub(crate) fn eof_words(list: &[u32]) -> Words
    ensures { words_of result ≡ eof_words list.now }
{
    let end = list_end(list);
    Words {
        kind: EOF,
        start: end,
        end,
    }
}

// The held token n, or the end-of-file token.
pub(crate) fn nth_words(state: &Ahead, n: usize, list: &[u32]) -> Words
    ensures { words_of result ≡ nth_of list.now n (view_of state.now) }
{
    if n < wide(state.nums[HELD_LEN]) {
        return token_at(list, state.held[slot::<8>(wide(state.nums[HELD_AT]), n)]);
    }
    eof_words(list)
}

// Its kind alone.
pub(crate) fn nth_kind(state: &Ahead, n: usize, list: &[u32]) -> u32
    ensures { result ≡ get_or (nth_of list.now n (view_of state.now)) 0 0 }
{
    if n < wide(state.nums[HELD_LEN]) {
        return kind_at(list, state.held[slot::<8>(wide(state.nums[HELD_AT]), n)]);
    }
    EOF
}

pub(crate) fn count_before(state: &Ahead, n: usize) -> u32
    ensures { result ≡ ring_at 8 state.now.counts (nums_of state.now.nums).held_at n }
{
    state.counts[slot::<8>(wide(state.nums[HELD_AT]), n)]
}

// What waits before the first held token, or all if none is held.
pub(crate) fn white_now(state: &Ahead) -> u32
    ensures { result ≡ white_of (view_of state.now) }
{
    if state.nums[HELD_LEN] == 0 {
        return state.nums[WAIT_LEN];
    }
    count_before(state, 0)
}

pub(crate) fn put_words(words: Words, out: &mut [u32], at: usize)
    requires { at + 3 ≤ length out.old }
    ensures { out.new ≡ sets out.old at (words_of words) }
{
    out[at] = words.kind;
    out[at + 1] = words.start;
    out[at + 2] = words.end;
}

// The first `count` that wait, to the store at `at`.
pub(crate) fn put_waiting(state: &Ahead, count: usize, list: &[u32], out: &mut [u32], at: usize)
    requires { at + count * 3 ≤ length out.old }
    ensures { out.new ≡ sets out.old at (wait_words count list.now state.now.waiting (nums_of state.now.nums).wait_at) }
{
    let from = wide(state.nums[WAIT_AT]);
    for i in 0..count {
        let words = token_at(list, state.waiting[slot::<256>(from, i)]);
        put_words(words, out, at + i * 3);
    }
}

pub(crate) fn less_waiting(nums: Nums, count: usize) -> Nums
    requires { count ≤ nums.wait_len }
    ensures { result ≡ less_waiting count nums }
{
    let mut n = nums;
    n.wait_at = slot::<256>(nums.wait_at, count);
    n.wait_len = nums.wait_len - count;
    n
}

pub(crate) fn less_held(nums: Nums) -> Nums
    ensures { result ≡ less_held nums }
{
    if nums.held_len == 0 {
        return nums;
    }
    let mut n = nums;
    n.held_at = slot::<8>(nums.held_at, 1);
    n.held_len = nums.held_len - 1;
    n
}

// The same where the numbers lie: two words are written, and not six as by way of `Nums`. They are read as a slice once: that tells the proof that
// there are six.
pub(crate) fn take_waiting(state: &mut Ahead, count: u32)
    requires { count ≤ (nums_of state.old.nums).wait_len }
    ensures { view_of state.new ≡ with_nums (less_waiting count (nums_of state.old.nums)) (view_of state.old) }
{
    let at = word(&state.nums, WAIT_AT);
    let len = state.nums[WAIT_LEN];
    state.nums[WAIT_AT] = (at % 256 + count % 256) % 256;
    state.nums[WAIT_LEN] = len - count;
}

pub(crate) fn take_held(state: &mut Ahead)
    ensures { view_of state.new ≡ with_nums (less_held (nums_of state.old.nums)) (view_of state.old) }
{
    let at = word(&state.nums, HELD_AT);
    let len = state.nums[HELD_LEN];
    if len == 0 {
        return;
    }
    state.nums[HELD_AT] = (at % 8 + 1) % 8;
    state.nums[HELD_LEN] = len - 1;
}
