// The state's test where the list and the order were tested before: small, so that each call has it in itself.
ghost use Rattle.std.specs.Prelude.{◌≡◌};
ghost use Rattle.ahead.specs.View.{nums_of};
ghost use Rattle.looks.specs.Sound.{bounded_by, none_by, some_by};

use crate::list::wide;
use crate::sound::counts_sum;
use ahead::{Ahead, HELD_AT, HELD_LEN, NEXT, WAIT_AT, WAIT_LEN};

// The numbers lie in their bounds.
#[tactic(auto, unfolding(crate::specs::Sound::bounded_by), using(crate::proofs::Six::reach_words))]
pub(crate) fn bounded(state: &Ahead, list: &[u32]) -> bool
    ensures { result ≡ bounded_by list.now (nums_of state.now.nums) }
{
    state.nums[HELD_LEN] <= 8
        && state.nums[WAIT_LEN] <= 256
        && state.nums[HELD_AT] < 8
        && state.nums[WAIT_AT] < 256
        && wide(state.nums[NEXT]) * 3 <= list.len()
}

// Whether it passes and one token or more is held.
#[tactic(auto, unfolding(crate::specs::Sound::some_by))]
pub(crate) fn some(state: &Ahead, tested: u32, list: &[u32]) -> bool
    ensures { result ≡ some_by tested list.now (nums_of state.now.nums) state.now.counts }
{
    0 < tested
        && 0 < state.nums[HELD_LEN]
        && bounded(state, list)
        && counts_sum(
            &state.counts,
            wide(state.nums[HELD_LEN]),
            wide(state.nums[HELD_AT]),
        ) <= wide(state.nums[WAIT_LEN])
}

// Whether it passes and none is held.
#[tactic(auto, unfolding(crate::specs::Sound::none_by))]
pub(crate) fn none(state: &Ahead, tested: u32, list: &[u32]) -> bool
    ensures { result ≡ none_by tested list.now (nums_of state.now.nums) }
{
    0 < tested && state.nums[HELD_LEN] == 0 && bounded(state, list)
}
