// Words, from after their first scalar on.
ghost use Rattle.std.specs.Prelude.{◌≡◌};
ghost use Rattle.classes.specs.Classes.{is_xid_continue};
ghost use Rattle.readers.specs.Readers.{word_of};
ghost use Rattle.text.specs.Utf8.{first, rest, width};

use readers::Test;
use text::character::UNDERSCORE;
use token::{Kind, Refusal, Token};

struct InWord;

impl Test for InWord {
    ghost passing = { is_xid_continue };

    fn passes(v: u32) -> bool {
        classes::is_xid_continue(v)
    }
}

// A word that begins with the scalar `first`.
#[tactic(auto, unfolding(readers::specs::Readers::word_of))]
pub fn next_ident(s: &[u8], first: u32, start: usize, at: usize) -> Result<Token, Refusal>
    ensures { result ≡ word_of width is_xid_continue first start (rest s.now at) at }
{
    let end = readers::run_end_by::<InWord>(s, at);
    if first == UNDERSCORE && end == at {
        token::got(Kind::Underscore, start, end)
    } else {
        token::got(Kind::Ident, start, end)
    }
}
