// The refusals of the calls that emit the front, and a state that is filled unless one of them holds.
ghost use Rattle.std.specs.Prelude.{◌≤◌, ◌≡◌, Ok};
ghost use Rattle.ahead.specs.View.{view_of};
ghost use Rattle.looks.specs.Buffer.{fill};
ghost use Rattle.looks.specs.Calls.{Emittable, need_by, room_refusal, room_to};

use crate::emit::{count_before, nth_words};
use crate::fill::gathers_at;
use crate::front::front_of;
use crate::list::wide;
use crate::look::Stop;
use crate::quick::some;
use crate::ready::{fill_refusal, lacks};
use ahead::Ahead;

// What a call of the front writes: the white space alone, the token too, or both if the token is of the kind and else nothing.
#[derive(Clone, Copy)]
pub enum Want {
    White,
    Both,
    Of(u32),
}

// How many words are to be written.
#[tactic(auto, unfolding(crate::specs::Calls::need_by))]
fn needs(want: Want, white: usize, found: u32) -> usize
    requires { white ≤ 8589934592 }
    ensures { result ≡ need_by want white found }
{
    match want {
        Want::White => white * 3,
        Want::Both => white * 3 + 3,
        Want::Of(kind) if found == kind => white * 3 + 3,
        Want::Of(_) => 0,
    }
}

// The front is seen before anything is written.
fn front_slow(
    state: &mut Ahead,
    tested: u32,
    want: Want,
    list: &[u32],
    room: usize,
) -> Result<(), Stop>
    ensures { (result ≡ room_refusal tested list.now want room (view_of state.old))
        × (view_of state.new ≡ room_to tested list.now want room (view_of state.old))
        × (result ≡ Ok tt → Emittable (fill list.now 0 (view_of state.old))) }
{
    fill_refusal(state, tested, 0, list)?;
    let front = front_of(state.nums(), state, list);
    if room < needs(want, front.white, front.words.kind) {
        return Err(Stop::StoreShort);
    }
    let lacking = lacks(state, 1);
    gathers_at(state, lacking, list);
    Ok(())
}

// With one held or more nothing is to be filled. Each of its three callers wants one thing alone, so it stands in each: that is a tenth of a bump.
#[inline(always)]
pub(crate) fn front_ready(
    state: &mut Ahead,
    tested: u32,
    want: Want,
    list: &[u32],
    room: usize,
) -> Result<(), Stop>
    ensures { (result ≡ room_refusal tested list.now want room (view_of state.old))
        × (view_of state.new ≡ room_to tested list.now want room (view_of state.old))
        × (result ≡ Ok tt → Emittable (fill list.now 0 (view_of state.old))) }
{
    if some(state, tested, list) {
        let words = nth_words(state, 0, list);
        let white = wide(count_before(state, 0));
        if room < needs(want, white, words.kind) {
            return Err(Stop::StoreShort);
        }
        return Ok(());
    }
    front_slow(state, tested, want, list, room)
}
