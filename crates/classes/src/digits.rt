// Digits and hex digits of ASCII, proved equal to their definitions.
ghost use Rattle.std.specs.Prelude.{◌≡◌};
ghost use Rattle.classes.specs.Digits.{digit_of, is_digit, is_hex_digit};

pub fn is_ascii_digit(v: u32) -> bool
    ensures { result ≡ is_digit v }
{
    matches!(v, 0x30..=0x39)
}

pub fn is_ascii_hexdigit(v: u32) -> bool
    ensures { result ≡ is_hex_digit v }
{
    matches!(v, 0x30..=0x39 | 0x61..=0x66 | 0x41..=0x46)
}

// The value of a hex digit.
#[tactic(auto, unfolding(crate::specs::Digits::digit_of, crate::specs::Digits::hex_value))]
pub fn hex_value(v: u32) -> Option<u32>
    ensures { result ≡ digit_of v }
{
    match v {
        0x30..=0x39 => Some(v - 0x30),
        0x61..=0x66 => Some(v - 0x61 + 10),
        0x41..=0x46 => Some(v - 0x41 + 10),
        _ => None,
    }
}
