// The forms of a body by number. Neither type is of this crate, so it is a function and no TryFrom.
ghost use Rattle.std.specs.Prelude.{◌≡◌};
ghost use Rattle.answers.specs.Told.{form_of};

use items::Form;

pub fn form_of(n: u32) -> Option<Form>
    ensures { result ≡ form_of n }
{
    match n {
        1 => Some(Form::Text),
        2 => Some(Form::Template),
        3 => Some(Form::Char),
        4 => Some(Form::ByteText),
        5 => Some(Form::Byte),
        _ => None,
    }
}
