// The calls for C and Rust that read a body or store a list (include/puffsatchel.h), by the same convention as those of `puffsatchel`.
#![tactic(auto)]

ghost use Rattle.std.specs.Prelude.{◌≡◌};
ghost use Rattle.puffsatchel_bytes.specs.Calls.{load_leaves, load_tells, store_leaves, store_tells, unescape_leaves, unescape_tells};

use answers::Told;
use token::Reason;

#[unsafe(no_mangle)]
pub extern "C" fn puffsatchel_unescape(
    body: &[u8],
    form: u32,
    out: &mut [u8],
    answer: &mut [usize; 5],
) -> u32
    ensures { (result ≡ (unescape_tells form body.now out.old).number)
        × (out.new ≡ unescape_leaves form body.now out.old)
        × (answer.new ≡ (unescape_tells form body.now out.old).words) }
{
    let Some(known) = answers::form_of(form) else {
        return Told::point(Reason::NoSuchForm, 0).tell(answer);
    };
    Told::from(unescape::unescape(body, known, out)).tell(answer)
}

// A token list, three words a token, as stored records.
#[unsafe(no_mangle)]
pub extern "C" fn puffsatchel_store(list: &[u32], out: &mut [u8], answer: &mut [usize; 5]) -> u32
    ensures { (result ≡ (store_tells list.now out.old).number)
        × (out.new ≡ store_leaves list.now out.old)
        × (answer.new ≡ (store_tells list.now out.old).words) }
{
    Told::from(storage::write(list, out)).tell(answer)
}

// Stored records as a token list.
#[unsafe(no_mangle)]
pub extern "C" fn puffsatchel_load(bytes: &[u8], out: &mut [u32], answer: &mut [usize; 5]) -> u32
    ensures { (result ≡ (load_tells bytes.now out.old).number)
        × (out.new ≡ load_leaves bytes.now out.old)
        × (answer.new ≡ (load_tells bytes.now out.old).words) }
{
    Told::from(storage::read(bytes, out)).tell(answer)
}
