// The refusals `Faulty`, `TooFar` and `WaitingFull`, and a state that is filled unless one of them holds.
ghost use Rattle.std.specs.Prelude.{◌-◌, ◌≡◌, true};
ghost use Rattle.ahead.specs.View.{nums_of, view_of};
ghost use Rattle.looks.specs.Calls.{fill_refusal, filled_to};
ghost use Rattle.looks.specs.Sound.{sound_by};

use crate::fill::{fits_for, gathers_at};
use crate::list::wide;
use crate::look::Stop;
use crate::quick::some;
use crate::sound::sound;
use ahead::{Ahead, HELD_LEN};

// How many tokens are lacking until n are held.
pub(crate) fn lacks(state: &Ahead, n: usize) -> usize
    ensures { result ≡ n - (nums_of state.now.nums).held_len }
{
    n.saturating_sub(wide(state.nums[HELD_LEN]))
}

// The first of `Faulty` for the state, `TooFar` and `WaitingFull`.
pub(crate) fn fill_refusal(state: &Ahead, tested: u32, n: usize, list: &[u32]) -> Result<(), Stop>
    ensures { result ≡ fill_refusal tested list.now n (view_of state.now) }
{
    if !sound(state, tested, list) {
        return Err(Stop::Faulty);
    }
    if n < wide(state.nums[HELD_LEN]) {
        return Ok(());
    }
    if 7 < n {
        return Err(Stop::TooFar);
    }
    if !fits_for(state.nums(), lacks(state, n + 1), list) {
        return Err(Stop::WaitingFull);
    }
    Ok(())
}

// For a state that passed the tests and holds n at most.
fn fill_more(state: &mut Ahead, tested: u32, n: usize, list: &[u32]) -> Result<(), Stop>
    requires { sound_by tested list.now (view_of state.old) ≡ true }
    ensures { (result ≡ fill_refusal tested list.now n (view_of state.old))
        × (view_of state.new ≡ filled_to tested list.now n (view_of state.old)) }
{
    if 7 < n {
        return Err(Stop::TooFar);
    }
    let lacking = lacks(state, n + 1);
    if !fits_for(state.nums(), lacking, list) {
        return Err(Stop::WaitingFull);
    }
    gathers_at(state, lacking, list);
    Ok(())
}

pub(crate) fn filled_at(state: &mut Ahead, tested: u32, n: usize, list: &[u32]) -> Result<(), Stop>
    ensures { (result ≡ fill_refusal tested list.now n (view_of state.old))
        × (view_of state.new ≡ filled_to tested list.now n (view_of state.old)) }
{
    if !sound(state, tested, list) {
        return Err(Stop::Faulty);
    }
    fill_more(state, tested, n, list)
}

// The same, with the short test, and nothing called where so many are held already.
pub(crate) fn ready_at(state: &mut Ahead, tested: u32, n: usize, list: &[u32]) -> Result<(), Stop>
    ensures { (result ≡ fill_refusal tested list.now n (view_of state.old))
        × (view_of state.new ≡ filled_to tested list.now n (view_of state.old)) }
{
    if !some(state, tested, list) {
        return filled_at(state, tested, n, list);
    }
    if n < wide(state.nums[HELD_LEN]) {
        return Ok(());
    }
    fill_more(state, tested, n, list)
}
