// The refusal `Faulty`: the faults of a lent list, and of a lent state over it.
ghost use Rattle.std.specs.Prelude.{◌≤◌, ◌<◌, ◌≡◌, length};
ghost use Rattle.ahead.specs.View.{view_of};
ghost use Rattle.looks.specs.Sound.{ascends_by, count_sum, follows_by, sound_by, whole_by};

use crate::list::{is_white, kind_at, wide};
use crate::quick::bounded;
use ahead::Ahead;
use rows::check_list;

fn whole(list: &[u32]) -> bool
    ensures { result ≡ whole_by list.now }
{
    check_list(list).is_ok()
}

// One number of a ring, and what it has to be: from low on, below top, and of white space or not.
fn follows(white: bool, list: &[u32], x: u32, low: usize, top: u32) -> bool
    ensures { result ≡ follows_by white list.now x low top }
{
    low <= wide(x) && x < top && is_white(kind_at(list, x)) == white
}

fn ascends(white: bool, list: &[u32], ring: &[u32], count: usize, at: usize, top: u32) -> bool
    requires { (0 < length ring.now) × (at ≤ 1024) × (count ≤ 1024) }
    ensures { result ≡ ascends_by white list.now (length ring.now) ring.now count at 0 top }
{
    let mut low: usize = 0;
    for i in 0..count {
        let x = ring[(at + i) % ring.len()];
        if !follows(white, list, x, low, top) {
            return false;
        }
        low = wide(x) + 1;
    }
    true
}

pub(crate) fn counts_sum(counts: &[u32; 8], count: usize, at: usize) -> usize
    requires { (at ≤ 8) × (count ≤ 8) }
    ensures { result ≡ count_sum counts.now count at }
{
    let mut sum: usize = 0;
    for i in 0..count {
        sum += wide(counts[(at + i) % 8]);
    }
    sum
}

// Unless `tested` is 0 the caller tested the list and the order of the numbers before. That the rings have eight places, as their type says, is
// told to callers that only hand them on.
pub(crate) fn sound(state: &Ahead, tested: u32, list: &[u32]) -> bool
    ensures { (result ≡ sound_by tested list.now (view_of state.now)) × (length state.now.held ≡ 8) × (length state.now.counts ≡ 8) }
{
    if !bounded(state, list) {
        return false;
    }
    let nums = state.nums();
    if nums.wait_len < counts_sum(&state.counts, nums.held_len, nums.held_at) {
        return false;
    }
    if 0 < tested {
        return true;
    }
    if !whole(list) {
        return false;
    }
    if !ascends(
        false,
        list,
        &state.held,
        nums.held_len,
        nums.held_at,
        nums.next,
    ) {
        return false;
    }
    ascends(
        true,
        list,
        &state.waiting,
        nums.wait_len,
        nums.wait_at,
        nums.next,
    )
}
