// Filling: the numbers by themselves, so that a refusal is known before anything is written, and the arrays where they lie.
ghost use Rattle.std.specs.Prelude.{◌+◌, ◌-◌, ◌≤◌, ◌≡◌, ltb};
ghost use Rattle.laws.specs.Bools.{pick};
ghost use Rattle.ahead.specs.View.{nums_of, view_of};
ghost use Rattle.looks.specs.Buffer.{Gatherable, Roomy, fits_for, gather, gather_at, gather_to, gathers, queued, white_to};
ghost use Rattle.looks.specs.Numbered.{token_count};

use crate::list::{count_of, next_dark, wide, word};
use ahead::{Ahead, HELD_AT, HELD_LEN, KEEP, NEXT, Nums, WAIT_AT, WAIT_LEN};

// How much white space is queued up to `to`.
pub(crate) fn white_at(keep: u32, first: u32, to: u32) -> u32
    requires { first ≤ to }
    ensures { result ≡ pick (ltb 0 keep) (to - first) 0 }
{
    if 0 < keep {
        return to - first;
    }
    0
}

pub(crate) fn gather_to(nums: Nums, to: u32, count: u32) -> Nums
    requires { (nums.next ≤ to) × Roomy nums }
    ensures { result ≡ gather_to to count nums }
{
    let mut n = nums;
    n.wait_len = nums.wait_len + wide(white_at(nums.keep, nums.next, to));
    n.next = to;
    if to < count {
        n.next = to + 1;
        n.held_len = nums.held_len + 1;
    }
    n
}

// Whether no 257th token waits while `times` more are gathered.
pub(crate) fn fits_for(nums: Nums, times: usize, list: &[u32]) -> bool
    requires { (nums.next ≤ token_count list.now) × Roomy nums × (nums.held_len + times ≤ 8) × (nums.wait_len ≤ 256) }
    ensures { result ≡ fits_for list.now times nums }
{
    if nums.keep == 0 {
        return true;
    }
    let count = count_of(list);
    let mut n = nums;
    for _ in 0..times {
        n = gather_to(n, next_dark(list, n.next), count);
        if 256 < n.wait_len {
            return false;
        }
    }
    true
}

fn queue(waiting: &mut [u32; 256], at: usize, from: u32, count: u32)
    requires { (at ≤ 2199023255552) × (from + count ≤ 4294967295) }
    ensures { waiting.new ≡ queued count waiting.old at from }
{
    for i in 0..count {
        waiting[(at + wide(i)) % 256] = from + i;
    }
}

pub(crate) fn gather_at(state: &mut Ahead, to: u32, count: u32)
    requires { ((nums_of state.old.nums).next ≤ to) × Roomy (nums_of state.old.nums) × ((nums_of state.old.nums).wait_len + white_to to (nums_of state.old.nums) ≤ 256) }
    ensures { view_of state.new ≡ gather_at to count (view_of state.old) }
{
    let first = state.nums[NEXT];
    let held_len = state.nums[HELD_LEN];
    let waits = state.nums[WAIT_LEN];
    let white = white_at(state.nums[KEEP], first, to);
    let end = (wide(state.nums[HELD_AT]) + wide(held_len)) % 8;
    // As a slice: that tells the proof that there are six.
    let from = wide(word(&state.nums, WAIT_AT));
    queue(&mut state.waiting, from + wide(waits), first, white);
    state.nums[WAIT_LEN] = waits + white;
    if count <= to {
        state.nums[NEXT] = to;
        return;
    }
    state.held[end] = to;
    state.counts[end] = white;
    state.nums[NEXT] = to + 1;
    state.nums[HELD_LEN] = held_len + 1;
}

// `times` more tokens gathered.
pub(crate) fn gathers_at(state: &mut Ahead, times: usize, list: &[u32])
    requires { Gatherable list.now times (nums_of state.old.nums) }
    ensures { view_of state.new ≡ gathers list.now times (view_of state.old) }
{
    let count = count_of(list);
    for _ in 0..times {
        let to = next_dark(list, state.nums[NEXT]);
        gather_at(state, to, count);
    }
}

// One more, unless a 257th token would wait: then nothing is changed.
pub(crate) fn one_more(state: &mut Ahead, list: &[u32]) -> bool
    requires { ((nums_of state.old.nums).next ≤ token_count list.now) × Roomy (nums_of state.old.nums) × ((nums_of state.old.nums).wait_len ≤ 256) }
    ensures { (result ≡ fits_for list.now 1 (nums_of state.old.nums))
        × (view_of state.new ≡ pick result (gather list.now (view_of state.old)) (view_of state.old)) }
{
    let to = next_dark(list, state.nums[NEXT]);
    let white = white_at(state.nums[KEEP], state.nums[NEXT], to);
    if 256 < wide(state.nums[WAIT_LEN]) + wide(white) {
        return false;
    }
    gather_at(state, to, count_of(list));
    true
}
