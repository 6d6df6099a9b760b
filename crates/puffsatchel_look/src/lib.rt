// The lookahead's calls for C and Rust (include/puffsatchel.h): the result is a refusal's number, 0 where there is none, and the rest of the
// answer goes to five lent words. The state is lent and changed where it stands; whatever bytes it holds, each call answers.
#![tactic(auto)]

ghost use Rattle.std.specs.Prelude.{◌≡◌, length};
ghost use Rattle.std.proofs.lemmas.List.Edits.{sets};
ghost use Rattle.ahead.specs.View.{view_of};
ghost use Rattle.look_answers.specs.Told.{number_told, words_told};
ghost use Rattle.looks.specs.Calls.{advance_by, array_by, bump_by, bump_if_by, fill_by, flush_by, glued_by, is_eof_by, nth_by, nth_token_by};
ghost use Rattle.looks.specs.While.{bump_while_by};

use ahead::Ahead;
use look_answers::tell_looked;
use lookahead::{
    advance, array, bump, bump_if, bump_while, fill, flush_ws, glued, is_eof, nth, nth_token, peek,
};

#[unsafe(no_mangle)]
pub extern "C" fn puffsatchel_fill(
    state: &mut Ahead,
    tested: u32,
    n: usize,
    list: &[u32],
    answer: &mut [usize; 5],
) -> u32
    ensures { (result ≡ number_told (fill_by tested list.now n (view_of state.old)).answer)
        × (answer.new ≡ words_told (fill_by tested list.now n (view_of state.old)).answer)
        × (view_of state.new ≡ (fill_by tested list.now n (view_of state.old)).state) }
{
    let looked = fill(state, tested, n, list);
    tell_looked(looked, answer)
}

#[unsafe(no_mangle)]
pub extern "C" fn puffsatchel_peek(
    state: &mut Ahead,
    tested: u32,
    list: &[u32],
    answer: &mut [usize; 5],
) -> u32
    ensures { (result ≡ number_told (nth_by tested list.now 0 (view_of state.old)).answer)
        × (answer.new ≡ words_told (nth_by tested list.now 0 (view_of state.old)).answer)
        × (view_of state.new ≡ (nth_by tested list.now 0 (view_of state.old)).state) }
{
    let looked = peek(state, tested, list);
    tell_looked(looked, answer)
}

#[unsafe(no_mangle)]
pub extern "C" fn puffsatchel_nth(
    state: &mut Ahead,
    tested: u32,
    n: usize,
    list: &[u32],
    answer: &mut [usize; 5],
) -> u32
    ensures { (result ≡ number_told (nth_by tested list.now n (view_of state.old)).answer)
        × (answer.new ≡ words_told (nth_by tested list.now n (view_of state.old)).answer)
        × (view_of state.new ≡ (nth_by tested list.now n (view_of state.old)).state) }
{
    let looked = nth(state, tested, n, list);
    tell_looked(looked, answer)
}

#[unsafe(no_mangle)]
pub extern "C" fn puffsatchel_nth_token(
    state: &mut Ahead,
    tested: u32,
    n: usize,
    list: &[u32],
    answer: &mut [usize; 5],
) -> u32
    ensures { (result ≡ number_told (nth_token_by tested list.now n (view_of state.old)).answer)
        × (answer.new ≡ words_told (nth_token_by tested list.now n (view_of state.old)).answer)
        × (view_of state.new ≡ (nth_token_by tested list.now n (view_of state.old)).state) }
{
    let looked = nth_token(state, tested, n, list);
    tell_looked(looked, answer)
}

#[unsafe(no_mangle)]
pub extern "C" fn puffsatchel_glued(
    state: &mut Ahead,
    tested: u32,
    n: usize,
    list: &[u32],
    answer: &mut [usize; 5],
) -> u32
    ensures { (result ≡ number_told (glued_by tested list.now n (view_of state.old)).answer)
        × (answer.new ≡ words_told (glued_by tested list.now n (view_of state.old)).answer)
        × (view_of state.new ≡ (glued_by tested list.now n (view_of state.old)).state) }
{
    let looked = glued(state, tested, n, list);
    tell_looked(looked, answer)
}

#[unsafe(no_mangle)]
pub extern "C" fn puffsatchel_is_eof(
    state: &mut Ahead,
    tested: u32,
    list: &[u32],
    answer: &mut [usize; 5],
) -> u32
    ensures { (result ≡ number_told (is_eof_by tested list.now (view_of state.old)).answer)
        × (answer.new ≡ words_told (is_eof_by tested list.now (view_of state.old)).answer)
        × (view_of state.new ≡ (is_eof_by tested list.now (view_of state.old)).state) }
{
    let looked = is_eof(state, tested, list);
    tell_looked(looked, answer)
}

#[unsafe(no_mangle)]
pub extern "C" fn puffsatchel_flush_ws(
    state: &mut Ahead,
    tested: u32,
    list: &[u32],
    out: &mut [u32],
    answer: &mut [usize; 5],
) -> u32
    ensures { (result ≡ number_told (flush_by tested list.now (length out.old) (view_of state.old)).answer)
        × (answer.new ≡ words_told (flush_by tested list.now (length out.old) (view_of state.old)).answer)
        × (view_of state.new ≡ (flush_by tested list.now (length out.old) (view_of state.old)).state)
        × (out.new ≡ sets out.old 0 (flush_by tested list.now (length out.old) (view_of state.old)).written) }
{
    let looked = flush_ws(state, tested, list, out);
    tell_looked(looked, answer)
}

#[unsafe(no_mangle)]
pub extern "C" fn puffsatchel_bump(
    state: &mut Ahead,
    tested: u32,
    list: &[u32],
    out: &mut [u32],
    answer: &mut [usize; 5],
) -> u32
    ensures { (result ≡ number_told (bump_by tested list.now (length out.old) (view_of state.old)).answer)
        × (answer.new ≡ words_told (bump_by tested list.now (length out.old) (view_of state.old)).answer)
        × (view_of state.new ≡ (bump_by tested list.now (length out.old) (view_of state.old)).state)
        × (out.new ≡ sets out.old 0 (bump_by tested list.now (length out.old) (view_of state.old)).written) }
{
    let looked = bump(state, tested, list, out);
    tell_looked(looked, answer)
}

#[unsafe(no_mangle)]
pub extern "C" fn puffsatchel_bump_if(
    state: &mut Ahead,
    tested: u32,
    kind: u32,
    list: &[u32],
    out: &mut [u32],
    answer: &mut [usize; 5],
) -> u32
    ensures { (result ≡ number_told (bump_if_by tested list.now kind (length out.old) (view_of state.old)).answer)
        × (answer.new ≡ words_told (bump_if_by tested list.now kind (length out.old) (view_of state.old)).answer)
        × (view_of state.new ≡ (bump_if_by tested list.now kind (length out.old) (view_of state.old)).state)
        × (out.new ≡ sets out.old 0 (bump_if_by tested list.now kind (length out.old) (view_of state.old)).written) }
{
    let looked = bump_if(state, tested, kind, list, out);
    tell_looked(looked, answer)
}

#[unsafe(no_mangle)]
pub extern "C" fn puffsatchel_bump_while(
    state: &mut Ahead,
    tested: u32,
    kind: u32,
    list: &[u32],
    out: &mut [u32],
    answer: &mut [usize; 5],
) -> u32
    ensures { (result ≡ number_told (bump_while_by tested list.now kind (length out.old) (view_of state.old)).answer)
        × (answer.new ≡ words_told (bump_while_by tested list.now kind (length out.old) (view_of state.old)).answer)
        × (view_of state.new ≡ (bump_while_by tested list.now kind (length out.old) (view_of state.old)).state)
        × (out.new ≡ sets out.old 0 (bump_while_by tested list.now kind (length out.old) (view_of state.old)).written) }
{
    let looked = bump_while(state, tested, kind, list, out);
    tell_looked(looked, answer)
}

#[unsafe(no_mangle)]
pub extern "C" fn puffsatchel_advance(
    state: &mut Ahead,
    tested: u32,
    n: usize,
    list: &[u32],
    out: &mut [u32],
    answer: &mut [usize; 5],
) -> u32
    ensures { (result ≡ number_told (advance_by tested list.now n (length out.old) (view_of state.old)).answer)
        × (answer.new ≡ words_told (advance_by tested list.now n (length out.old) (view_of state.old)).answer)
        × (view_of state.new ≡ (advance_by tested list.now n (length out.old) (view_of state.old)).state)
        × (out.new ≡ sets out.old 0 (advance_by tested list.now n (length out.old) (view_of state.old)).written) }
{
    let looked = advance(state, tested, n, list, out);
    tell_looked(looked, answer)
}

#[unsafe(no_mangle)]
pub extern "C" fn puffsatchel_array(
    state: &mut Ahead,
    tested: u32,
    n: usize,
    list: &[u32],
    out: &mut [u32],
    answer: &mut [usize; 5],
) -> u32
    ensures { (result ≡ number_told (array_by tested list.now n (length out.old) (view_of state.old)).answer)
        × (answer.new ≡ words_told (array_by tested list.now n (length out.old) (view_of state.old)).answer)
        × (view_of state.new ≡ (array_by tested list.now n (length out.old) (view_of state.old)).state)
        × (out.new ≡ sets out.old 0 (array_by tested list.now n (length out.old) (view_of state.old)).written) }
{
    let looked = array(state, tested, n, list, out);
    tell_looked(looked, answer)
}
