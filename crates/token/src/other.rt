// A number that names no reason.
ghost use Rattle.std.specs.Prelude.{◌≡◌, false};
ghost use Rattle.token.specs.Named.{is_named};

#[derive(Clone, Copy, PartialEq, Eq)]
pub struct OtherNumber {
    pub number: u32,
    pub ghost other: { is_named number ≡ false },
}
