// Sources to try: random ones over tricky characters, and damaged copies of a file.
ghost use Rattle.std.specs.Prelude.{◌+◌, ◌-◌, ◌≤◌, ◌<◌, ◌≡◌, ◌↔◌, IsTrue, length};

const TRICKY: &[u8; 32] = b"/*/*\"\"\"``\\\\b''\n a_1.=<>-{}$#!x\x01~";

// The most bytes that a source has.
const MOST: usize = 4096;

// The generator of Park and Miller.
#[derive(Drop)]
pub(crate) struct Seed(pub u64);

impl Seed {
    fn next(&mut self) -> u64 {
        self.0 = self.0 % 2147483647 * 48271 % 2147483647;
        self.0
    }
}

// A source, at the front of its bytes.
#[derive(Drop)]
pub(crate) struct Source {
    bytes: [u8; 4096],
    length: usize,
    ghost fits: { length ≤ 4096 },
}

impl Source {
    pub(crate) fn empty() -> Source {
        Source {
            bytes: [0; MOST],
            length: 0,
        }
    }

    pub(crate) fn text(&self) -> &[u8] {
        &self.bytes[..self.length]
    }

    fn has_room(&self, count: usize) -> bool
        ensures { IsTrue result ↔ (count ≤ 4096 - self.now.length) }
    {
        count <= MOST - self.length
    }

    // A byte past the room is let go.
    fn push(&mut self, byte: u8)
        ensures { self.old.length < 4096 → self.new.length ≡ self.old.length + 1 }
    {
        if self.length < MOST {
            self.bytes[self.length] = byte;
            self.length += 1;
        }
    }

    // A character of the table; `~` makes a scalar of two bytes where there is room.
    fn push_tricky(&mut self, number: u64)
        ensures { self.old.length < 4096 → self.old.length < self.new.length }
    {
        let byte = TRICKY[(number % 32) as usize];
        if byte == b'~' && self.has_room(2) {
            self.push(0xc3);
            self.push(0xa9);
        } else {
            self.push(byte);
        }
    }

    // So many bytes of the file from a place on, as far as it goes.
    fn copy(&mut self, file: &[u8], at: usize, count: usize) {
        for byte in file.iter().skip(at).take(count) {
            self.push(*byte);
        }
    }

    // Up to three characters of the table.
    fn sprinkle(&mut self, number: u64) {
        let mut from = number / 4;
        for _ in 0..number % 4 {
            self.push_tricky(from);
            from = from / 32;
        }
    }

    // The first of 60 bytes of characters of the table.
    fn make(&mut self, seed: &mut Seed, length: usize) {
        while self.length < 60 {
            self.push_tricky(seed.next() / 1024);
        }
        self.length = self.length.min(length);
    }

    // A copy whose runs are broken one to four times by characters of the table and by a jump: what the jump passes over is deleted or
    // overwritten, what it goes back over is doubled. One copy in four is cut at the last break.
    fn damage(&mut self, file: &[u8], seed: &mut Seed)
        requires { (0 < length file.now) × (length file.now ≤ 4096) }
    {
        let n = file.len();
        let shape = seed.next();
        let mut at: usize = 0;
        for _ in 0..1 + shape / 4 % 4 {
            let run = below(seed.next(), n);
            self.copy(file, at, run);
            self.sprinkle(seed.next());
            at = jump(at + run, seed.next(), n);
        }
        if shape % 4 != 0 {
            self.copy(file, at, n);
        }
    }

    // The source of a turn: a damaged copy of the file, or where there is none the first of 60 random bytes.
    pub(crate) fn become_next(&mut self, file: &[u8], seed: &mut Seed, turn: u64) {
        self.length = 0;
        match file.len() {
            1..=MOST => self.damage(file, seed),
            _ => self.make(seed, (turn % 60) as usize),
        }
    }
}

fn below(number: u64, n: usize) -> usize
    requires { 0 < n }
    ensures { result < n }
{
    number as usize % n
}

// Where copying goes on in a file of n bytes: one time in four anywhere, else within 8 bytes of where it stopped.
fn jump(stopped: usize, number: u64, n: usize) -> usize
    requires { (0 < n) × (n ≤ 4096) × (stopped ≤ 8192) }
    ensures { result < n }
{
    if number % 4 == 0 {
        return below(number / 4, n);
    }
    (stopped + n + below(number / 4, 16) - n.min(8)) % n
}
