// The calls for C and Rust that read a source (include/puffsatchel.h): the result is a refusal's number, 0 where there is none, and the rest of the
// answer goes to five lent words. Each equals the definition of the call below it, on every input; none keeps or allocates memory. Those with a reading
// begin alike: each is an exported name with parameters of its own, and what they share is one `let .. else`.
#![tactic(auto)]

ghost use Rattle.std.specs.Prelude.{◌≡◌};
ghost use Rattle.answers.specs.Told.{told_as};
ghost use Rattle.puffsatchel.specs.Calls.{findings_leaves, findings_tells, list_leaves, list_tells, next_tells, outline_leaves, outline_tells, read_tells, test_tells, version};

use answers::Told;
use token::Reason;

const VERSION: u32 = 6;

// The number names no reading: nothing is read.
fn no_such_reading(answer: &mut [usize; 5]) -> u32
    ensures { (result ≡ 6) × (answer.new ≡ (told_as 6 0 0 0 0 0).words) }
{
    Told::point(Reason::NoSuchReading, 0).tell(answer)
}

#[unsafe(no_mangle)]
pub extern "C" fn puffsatchel_version() -> u32
    ensures { result ≡ version }
{
    VERSION
}

#[unsafe(no_mangle)]
pub extern "C" fn puffsatchel_test(source: &[u8], answer: &mut [usize; 5]) -> u32
    ensures { (result ≡ (test_tells source.now).number) × (answer.new ≡ (test_tells source.now).words) }
{
    Told::from(source_test::test_source(source)).tell(answer)
}

#[unsafe(no_mangle)]
pub extern "C" fn puffsatchel_read(
    source: &[u8],
    reading: u32,
    at: usize,
    answer: &mut [usize; 5],
) -> u32
    ensures { (result ≡ (read_tells reading source.now at).number) × (answer.new ≡ (read_tells reading source.now at).words) }
{
    let Some(known) = answers::reading_of(reading) else {
        return no_such_reading(answer);
    };
    Told::from(lexer::read(source, known, at)).tell(answer)
}

// For a source that puffsatchel_test has accepted; total on every other.
#[unsafe(no_mangle)]
pub extern "C" fn puffsatchel_next(
    source: &[u8],
    reading: u32,
    at: usize,
    answer: &mut [usize; 5],
) -> u32
    ensures { (result ≡ (next_tells reading source.now at).number) × (answer.new ≡ (next_tells reading source.now at).words) }
{
    let Some(known) = answers::reading_of(reading) else {
        return no_such_reading(answer);
    };
    Told::from(lexer::next(source, known, at)).tell(answer)
}

#[unsafe(no_mangle)]
pub extern "C" fn puffsatchel_list(
    source: &[u8],
    reading: u32,
    store: &mut [u32],
    answer: &mut [usize; 5],
) -> u32
    ensures { (result ≡ (list_tells reading source.now store.old).number)
        × (store.new ≡ list_leaves reading source.now store.old)
        × (answer.new ≡ (list_tells reading source.now store.old).words) }
{
    let Some(known) = answers::reading_of(reading) else {
        return no_such_reading(answer);
    };
    Told::from(listing::list(source, known, store)).tell(answer)
}

#[unsafe(no_mangle)]
pub extern "C" fn puffsatchel_outline(
    source: &[u8],
    reading: u32,
    out: &mut [u8],
    answer: &mut [usize; 5],
) -> u32
    ensures { (result ≡ (outline_tells reading source.now out.old).number)
        × (out.new ≡ outline_leaves reading source.now out.old)
        × (answer.new ≡ (outline_tells reading source.now out.old).words) }
{
    let Some(known) = answers::reading_of(reading) else {
        return no_such_reading(answer);
    };
    Told::from(outline::outline(source, known, out)).tell(answer)
}

#[unsafe(no_mangle)]
pub extern "C" fn puffsatchel_findings(
    source: &[u8],
    reading: u32,
    store: &mut [u32],
    answer: &mut [usize; 5],
) -> u32
    ensures { (result ≡ (findings_tells reading source.now store.old).number)
        × (store.new ≡ findings_leaves reading source.now store.old)
        × (answer.new ≡ (findings_tells reading source.now store.old).words) }
{
    let Some(known) = answers::reading_of(reading) else {
        return no_such_reading(answer);
    };
    Told::from(findings::findings(source, known, store)).tell(answer)
}
