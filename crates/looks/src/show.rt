// The calls that write nothing: each fills, and shows what is held. The state is lent and changed where it stands. `tested` is a number, as C hands
// it on: 0 says that neither list nor state was tested.
ghost use Rattle.std.specs.Prelude.{◌≡◌};
ghost use Rattle.ahead.specs.View.{nums_of, view_of};
ghost use Rattle.looks.specs.Calls.{fill_by, fill_refusal, filled_to, glued_by, glued_kind, is_eof_by, nth_by, nth_token_by};

use crate::emit::{EOF, count_before, nth_kind, nth_words};
use crate::fill::one_more;
use crate::look::{Done, Stop};
use crate::quick::none;
use crate::ready::{filled_at, ready_at};
use ahead::Ahead;

pub fn fill(state: &mut Ahead, tested: u32, n: usize, list: &[u32]) -> Result<Done, Stop>
    ensures { (view_of state.new ≡ (fill_by tested list.now n (view_of state.old)).state)
        × (result ≡ (fill_by tested list.now n (view_of state.old)).answer) }
{
    filled_at(state, tested, n, list)?;
    Ok(Done::default())
}

pub fn nth(state: &mut Ahead, tested: u32, n: usize, list: &[u32]) -> Result<Done, Stop>
    ensures { (view_of state.new ≡ (nth_by tested list.now n (view_of state.old)).state)
        × (result ≡ (nth_by tested list.now n (view_of state.old)).answer) }
{
    ready_at(state, tested, n, list)?;
    Ok(Done {
        value: nth_kind(state, n, list),
        ..Done::default()
    })
}

// Mostly none is held when a parser peeks.
fn peek_ready(state: &mut Ahead, tested: u32, list: &[u32]) -> Result<(), Stop>
    ensures { (result ≡ fill_refusal tested list.now 0 (view_of state.old))
        × (view_of state.new ≡ filled_to tested list.now 0 (view_of state.old)) }
{
    if none(state, tested, list) {
        if one_more(state, list) {
            return Ok(());
        }
        return Err(Stop::WaitingFull);
    }
    ready_at(state, tested, 0, list)
}

pub fn peek(state: &mut Ahead, tested: u32, list: &[u32]) -> Result<Done, Stop>
    ensures { (view_of state.new ≡ (nth_by tested list.now 0 (view_of state.old)).state)
        × (result ≡ (nth_by tested list.now 0 (view_of state.old)).answer) }
{
    peek_ready(state, tested, list)?;
    Ok(Done {
        value: nth_kind(state, 0, list),
        ..Done::default()
    })
}

pub fn nth_token(state: &mut Ahead, tested: u32, n: usize, list: &[u32]) -> Result<Done, Stop>
    ensures { (view_of state.new ≡ (nth_token_by tested list.now n (view_of state.old)).state)
        × (result ≡ (nth_token_by tested list.now n (view_of state.old)).answer) }
{
    ready_at(state, tested, n, list)?;
    let words = nth_words(state, n, list);
    Ok(Done {
        count: 0,
        value: words.kind,
        start: words.start,
        end: words.end,
    })
}

fn glued_kind(state: &Ahead, n: usize, list: &[u32]) -> u32
    ensures { result ≡ glued_kind list.now n (nums_of state.now.nums) state.now.held state.now.counts }
{
    if count_before(state, n) != 0 {
        return EOF;
    }
    nth_kind(state, n, list)
}

pub fn glued(state: &mut Ahead, tested: u32, n: usize, list: &[u32]) -> Result<Done, Stop>
    ensures { (view_of state.new ≡ (glued_by tested list.now n (view_of state.old)).state)
        × (result ≡ (glued_by tested list.now n (view_of state.old)).answer) }
{
    ready_at(state, tested, n, list)?;
    Ok(Done {
        value: glued_kind(state, n, list),
        ..Done::default()
    })
}

pub fn is_eof(state: &mut Ahead, tested: u32, list: &[u32]) -> Result<Done, Stop>
    ensures { (view_of state.new ≡ (is_eof_by tested list.now (view_of state.old)).state)
        × (result ≡ (is_eof_by tested list.now (view_of state.old)).answer) }
{
    ready_at(state, tested, 0, list)?;
    Ok(Done {
        value: u32::from(nth_kind(state, 0, list) == EOF),
        ..Done::default()
    })
}
