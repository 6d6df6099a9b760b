// The characters that the rules name, as scalars.
pub const LINE_FEED: u32 = 10;

pub const CARRIAGE_RETURN: u32 = 13;

pub const BANG: u32 = 33;

pub const DOUBLE_QUOTE: u32 = 34;

pub const HASH: u32 = 35;

pub const DOLLAR: u32 = 36;

pub const QUOTE: u32 = 39;

pub const STAR: u32 = 42;

pub const PLUS: u32 = 43;

pub const MINUS: u32 = 45;

pub const DOT: u32 = 46;

pub const SLASH: u32 = 47;

pub const DIGIT_ZERO: u32 = 48;

pub const CAPITAL_E: u32 = 69;

pub const BACKSLASH: u32 = 92;

pub const UNDERSCORE: u32 = 95;

pub const BACKTICK: u32 = 96;

pub const LETTER_B: u32 = 98;

pub const LETTER_E: u32 = 101;

pub const LETTER_N: u32 = 110;

pub const LETTER_O: u32 = 111;

pub const LETTER_R: u32 = 114;

pub const LETTER_T: u32 = 116;

pub const LETTER_U: u32 = 117;

pub const LETTER_X: u32 = 120;

pub const OPEN_BRACE: u32 = 123;

pub const CLOSE_BRACE: u32 = 125;
