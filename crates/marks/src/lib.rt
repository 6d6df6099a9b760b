// Which tokens have an inside, and the lengths of the marks that stay before and after it, by kind.
#![tactic(auto)]

ghost use Rattle.std.specs.Prelude.{◌≡◌, length};
ghost use Rattle.marks.specs.Marks.{close_mark, open_mark};
ghost use Rattle.numbers.specs.Kinds.{has_inside};

use token::Kind;

// Whether the outline paints what stands between its marks.
#[tactic(auto, unfolding(numbers::specs::Kinds::number_of))]
pub fn has_inside(kind: Kind) -> bool
    ensures { result ≡ has_inside kind }
{
    matches!(
        kind,
        Kind::Comment
            | Kind::MultilineComment { .. }
            | Kind::Str { .. }
            | Kind::ByteStr { .. }
            | Kind::Template { .. }
    )
}

// How many bytes of a token stay before its inside.
#[tactic(auto, unfolding(crate::specs::Marks::open_mark, numbers::specs::Kinds::number_of))]
pub fn opens(kind: Kind) -> usize
    ensures { result ≡ length (open_mark kind) }
{
    match kind {
        Kind::Comment | Kind::MultilineComment { .. } | Kind::ByteStr { .. } => 2,
        Kind::Str { .. } | Kind::Template { .. } => 1,
        _ => 0,
    }
}

// How many stay after it.
#[tactic(auto, unfolding(crate::specs::Marks::close_mark, crate::specs::Shut::is_shut, numbers::specs::Kinds::number_of))]
pub fn closes(kind: Kind) -> usize
    ensures { result ≡ length (close_mark kind) }
{
    match kind {
        Kind::MultilineComment { closed: true } => 2,
        Kind::Str { .. } | Kind::ByteStr { .. } | Kind::Template { closed: true } => 1,
        _ => 0,
    }
}
