// The state of the parser's lookahead buffer, and a fresh one.
#![tactic(auto)]

ghost use Rattle.std.specs.Prelude.{◌≡◌};
ghost use Rattle.ahead.specs.View.{fresh_by, nums_of, view_of};

// The numbers by value, where they are planned with: the next token of the list, whether white space is kept (0: dropped), where the held tokens
// start in their ring and how many there are, and the same of the waiting white space.
#[derive(Clone, Copy)]
pub struct Nums {
    pub next: u32,
    pub keep: u32,
    pub held_at: usize,
    pub held_len: usize,
    pub wait_at: usize,
    pub wait_len: usize,
}

// Where each of them lies in the state.
pub const NEXT: usize = 0;

pub const KEEP: usize = 1;

pub const HELD_AT: usize = 2;

pub const HELD_LEN: usize = 3;

pub const WAIT_AT: usize = 4;

pub const WAIT_LEN: usize = 5;

// The numbers, the held tokens by number, the count of white space before each, and the waiting white space by number. C lends it: so the rings are
// arrays side by side, and whether white space is kept is a number.
#[repr(C)]
#[derive(Drop)]
pub struct Ahead {
    pub nums: [u32; 6],
    pub held: [u32; 8],
    pub counts: [u32; 8],
    pub waiting: [u32; 256],
}

impl Ahead {
    // A fresh state: nothing is held, nothing waits, and white space is kept or dropped.
    pub fn new(keep: bool) -> Self
        ensures { view_of result ≡ fresh_by keep }
    {
        Self {
            nums: [0, u32::from(keep), 0, 0, 0, 0],
            held: [0; 8],
            counts: [0; 8],
            waiting: [0; 256],
        }
    }

    pub fn nums(&self) -> Nums
        ensures { result ≡ nums_of self.now.nums }
    {
        Nums {
            next: self.nums[NEXT],
            keep: self.nums[KEEP],
            held_at: self.nums[HELD_AT] as usize,
            held_len: self.nums[HELD_LEN] as usize,
            wait_at: self.nums[WAIT_AT] as usize,
            wait_len: self.nums[WAIT_LEN] as usize,
        }
    }
}
