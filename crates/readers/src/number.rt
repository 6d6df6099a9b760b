// How far a part of a number, before its `.` or after it, has been read: the number's first digit, where that is 0; digits and `_`; then one
// `e` or `E`; or anything else. In a number that begins with `0x`, `0b` or `0o` both parts are `Based`.
// It stands here for the specs; what a scalar does to it is private to `words`, in functions and not methods for that reason.
#[derive(Clone, Copy)]
pub enum Part {
    Zero,
    Digits,
    Exponent,
    Mixed,
    Based,
}
