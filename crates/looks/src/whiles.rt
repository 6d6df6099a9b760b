// `bump_while`: the run is planned on numbers, so that a refusal changes nothing, and then made.
ghost use Rattle.std.specs.Prelude.{◌-◌, ◌*◌, ◌≤◌, ◌≡◌, Ok, Err, true, not, eqb, get_or, length};
ghost use Rattle.std.proofs.lemmas.List.Edits.{sets};
ghost use Rattle.laws.specs.Bools.{both, pick};
ghost use Rattle.ahead.specs.View.{nums_of, view_of};
ghost use Rattle.looks.specs.Buffer.{Gatherable, Roomy, fill, fits};
ghost use Rattle.looks.specs.Front.{nth_of};
ghost use Rattle.looks.specs.Numbered.{token_count};
ghost use Rattle.looks.specs.Sound.{some_by};
ghost use Rattle.looks.specs.declared.look.Stop.TheVariants.{StoreShort};
ghost use Rattle.looks.specs.While.{Plannable, bump_while_by, fill_nums, goes_on, while_plan, while_run};

use crate::emit::{EOF, count_before, less_held, less_waiting, nth_kind, nth_words};
use crate::fill::{gather_to, gathers_at};
use crate::front::{emit_front, front_of};
use crate::list::{count_of, next_dark, wide};
use crate::look::{Done, Stop};
use crate::quick::some;
use crate::ready::lacks;
use crate::sound::sound;
use ahead::{Ahead, HELD_LEN, Nums};

fn filled_nums(nums: Nums, list: &[u32]) -> Nums
    requires { (nums.next ≤ token_count list.now) × Roomy nums }
    ensures { result ≡ fill_nums list.now nums }
{
    if nums.held_len == 0 {
        return gather_to(nums, next_dark(list, nums.next), count_of(list));
    }
    nums
}

// A run to the end never stops where it is of the kind of the end.
fn at_end(kind: u32, count: usize) -> Result<usize, Stop>
    ensures { result ≡ pick (eqb kind 67) (Err StoreShort) (Ok count) }
{
    if kind == EOF {
        return Err(Stop::StoreShort);
    }
    Ok(count)
}

// How many tokens are to be emitted.
fn plan_while(state: &Ahead, kind: u32, list: &[u32]) -> Result<usize, Stop>
    requires { Plannable list.now (nums_of state.now.nums) state.now.held state.now.counts }
    ensures { result ≡ while_plan list.now kind (view_of state.now) }
{
    let mut m = state.nums();
    let mut count: usize = 0;
    loop {
        let front = front_of(m, state, list);
        let f = filled_nums(m, list);
        if 256 < f.wait_len {
            return Err(Stop::WaitingFull);
        }
        if f.held_len == 0 {
            return at_end(kind, count);
        }
        if front.words.kind != kind {
            return Ok(count);
        }
        m = less_held(less_waiting(f, front.white));
        count += front.white + 1;
    }
}

fn goes_on(state: &Ahead, kind: u32, list: &[u32]) -> bool
    ensures { result ≡ goes_on list.now kind (nums_of state.now.nums) state.now.held }
{
    0 < state.nums[HELD_LEN] && nth_kind(state, 0, list) == kind
}

fn refill(state: &mut Ahead, list: &[u32])
    requires { Gatherable list.now (1 - (nums_of state.old.nums).held_len) (nums_of state.old.nums) }
    ensures { view_of state.new ≡ fill list.now 0 (view_of state.old) }
{
    let lacking = lacks(state, 1);
    gathers_at(state, lacking, list);
}

fn run_while(state: &mut Ahead, kind: u32, list: &[u32], out: &mut [u32])
    requires { Plannable list.now (nums_of state.old.nums) state.old.held state.old.counts
        × (fits list.now 0 (nums_of state.old.nums) ≡ true)
        × ((while_run list.now kind (view_of state.old)).fitting ≡ true)
        × ((while_run list.now kind (view_of state.old)).count * 3 ≤ length out.old) }
    ensures { (view_of state.new ≡ (while_run list.now kind (view_of state.old)).state)
        × (out.new ≡ sets out.old 0 (while_run list.now kind (view_of state.old)).written) }
{
    refill(state, list);
    let mut at: usize = 0;
    while goes_on(state, kind, list) {
        let white = count_before(state, 0);
        let words = nth_words(state, 0, list);
        emit_front(state, white, words, list, out, at);
        at += wide(white) * 3 + 3;
        refill(state, list);
    }
}

// Whether a token is held and the first is of another kind: then nothing is done.
fn other(state: &Ahead, tested: u32, kind: u32, list: &[u32]) -> bool
    ensures { result ≡ both (some_by tested list.now (nums_of state.now.nums) state.now.counts) (not (eqb (get_or (nth_of list.now 0 (view_of state.now)) 0 0) kind)) }
{
    some(state, tested, list) && nth_kind(state, 0, list) != kind
}

fn while_slow(
    state: &mut Ahead,
    tested: u32,
    kind: u32,
    list: &[u32],
    out: &mut [u32],
) -> Result<Done, Stop>
    ensures { (view_of state.new ≡ (bump_while_by tested list.now kind (length out.old) (view_of state.old)).state)
        × (result ≡ (bump_while_by tested list.now kind (length out.old) (view_of state.old)).answer)
        × (out.new ≡ sets out.old 0 (bump_while_by tested list.now kind (length out.old) (view_of state.old)).written) }
{
    if !sound(state, tested, list) {
        return Err(Stop::Faulty);
    }
    let count = plan_while(state, kind, list)?;
    if out.len() / 3 < count {
        return Err(Stop::StoreShort);
    }
    run_while(state, kind, list, out);
    Ok(Done {
        count,
        value: u32::from(0 < count),
        ..Done::default()
    })
}

pub fn bump_while(
    state: &mut Ahead,
    tested: u32,
    kind: u32,
    list: &[u32],
    out: &mut [u32],
) -> Result<Done, Stop>
    ensures { (view_of state.new ≡ (bump_while_by tested list.now kind (length out.old) (view_of state.old)).state)
        × (result ≡ (bump_while_by tested list.now kind (length out.old) (view_of state.old)).answer)
        × (out.new ≡ sets out.old 0 (bump_while_by tested list.now kind (length out.old) (view_of state.old)).written) }
{
    if other(state, tested, kind, list) {
        return Ok(Done::default());
    }
    while_slow(state, tested, kind, list, out)
}
