// Runs the test of a source over short byte sequences and prints a line for each first byte: `BYTE GOOD SUM`.
// What it must print is what Rust's core::str::from_utf8 gave for the same sequences in the same order; rust/utf8-verdicts wrote that down.
#![tactic(auto)]

// What the later bytes of a sequence of four run over: the ends of the ranges of RFC 3629, section 4, and their neighbours.
const SECOND: [u8; 10] = [0x00, 0x7f, 0x80, 0x8f, 0x90, 0x9f, 0xa0, 0xbf, 0xc0, 0xff];

const LATER: [u8; 6] = [0x00, 0x7f, 0x80, 0xbf, 0xc0, 0xff];

// The sum has for each ill-formed sequence its number among the tested ones, times one more than the place of the fault.
#[derive(Clone, Copy, Default)]
struct Tally {
    tested: u32,
    good: u32,
    sum: u32,
}

impl Tally {
    fn test(&mut self, s: &[u8]) {
        self.tested = self.tested.wrapping_add(1);
        match source_test::test_source(s) {
            Ok(()) => self.good = self.good.wrapping_add(1),
            Err(refusal) => {
                let place = u32::try_from(refusal.span.start).unwrap_or(u32::MAX);
                let weight = place.wrapping_add(1);
                self.sum = self.sum.wrapping_add(self.tested.wrapping_mul(weight));
            }
        }
    }

    fn test_two(&mut self, lead: u8) {
        for second in 0..=255 {
            self.test(&[lead, second]);
        }
    }

    fn test_three(&mut self, lead: u8) {
        for second in 0..=255 {
            for third in 0..=255 {
                self.test(&[lead, second, third]);
            }
        }
    }

    fn test_four(&mut self, lead: u8) {
        for second in SECOND {
            for third in LATER {
                for fourth in LATER {
                    self.test(&[lead, second, third, fourth]);
                }
            }
        }
    }
}

fn main(rt: HostRuntime) {
    let to = rt.stdout();
    for lead in 0..=255 {
        let mut tally = Tally::default();
        tally.test(&[lead]);
        tally.test_two(lead);
        tally.test_three(lead);
        tally.test_four(lead);
        let _ = println!(to; "{lead} {} {}", tally.good, tally.sum);
    }
}
