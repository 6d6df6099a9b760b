// What a call answers, or why it does nothing.
ghost use Rattle.std.specs.Prelude.{◌≡◌};
ghost use Rattle.looks.specs.Answer.{number_of};

// How many tokens were written to the front of the store; a kind, or 1 for yes and 0 for no; and a span. What a call does not give is 0.
// One record for all calls: each leaves its answer to C in the same five words.
#[derive(Clone, Copy, Default)]
pub struct Done {
    pub count: usize,
    pub value: u32,
    pub start: u32,
    pub end: u32,
}

// Why a call is refused. State and store stay as they were.
#[derive(Clone, Copy, PartialEq, Eq)]
pub enum Stop {
    TooFar = 30,
    WaitingFull = 31,
    PastHeld = 32,
    StoreShort = 33,
    Faulty = 34,
}

impl From<Stop> for u32 {
    ghost from_gives = { λ stop number. number ≡ number_of stop };

    fn from(stop: Stop) -> u32 {
        stop as u32
    }
}
