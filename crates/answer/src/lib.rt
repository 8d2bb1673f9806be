// The answer to a check: one type from the search to the last caller, and one word of 64 bits where a caller takes no type.
#![tactic(auto)]

ghost use Rattle.std.specs.Prelude.{◌≡◌};
ghost use Rattle.answer.specs.Answer.{tally_in, number_in};
ghost use Rattle.answer.specs.Numbers.{by_number};
ghost use Rattle.answer.specs.Packed.{kind_in, packed, Packable};

mod refusal;

pub use refusal::{Refusal, Stop};

// The counts: branchings, derived rules, records.
#[derive(Clone, Copy, Default)]
pub struct Tally {
    pub branchings: u32,
    pub derived: usize,
    pub records: usize,
}

// A verdict, a refusal, or a stop.
#[derive(Clone, Copy)]
pub enum Answer {
    Can(Tally),
    Cannot(Tally),
    Refused(Refusal),
    Stopped(Stop, Tally),
}

// The counts of an answer; zeros for a refusal.
pub fn tally_of(a: Answer) -> Tally
    ensures { result ≡ tally_in (by_number a) }
{
    match a {
        Answer::Can(tally) | Answer::Cannot(tally) | Answer::Stopped(_, tally) => tally,
        Answer::Refused(_) => Tally::default(),
    }
}

// The number of a refusal or a stop; 0 for a verdict.
pub fn number_of(a: Answer) -> u32
    ensures { result ≡ number_in (by_number a) }
{
    match a {
        Answer::Can(_) | Answer::Cannot(_) => 0,
        Answer::Refused(refusal) => u32::from(refusal),
        Answer::Stopped(stop, _) => u32::from(stop),
    }
}

// 0 can, 1 cannot, 2 refused, 3 stopped.
fn kind_of(a: Answer) -> u64
    ensures { result ≡ kind_in (by_number a) }
{
    match a {
        Answer::Can(_) => 0,
        Answer::Cannot(_) => 1,
        Answer::Refused(_) => 2,
        Answer::Stopped(_, _) => 3,
    }
}

// What one more of each adds to the word: the kind has 2 bits, the number 6, the branchings 32, the derived rules 12 and the records 7.
const ONE_NUMBER: u64 = 1 << 2;

const ONE_BRANCHING: u64 = ONE_NUMBER << 6;

const ONE_DERIVED: u64 = ONE_BRANCHING << 32;

const ONE_RECORD: u64 = ONE_DERIVED << 12;

// The answer as one word. Every answer to a check is packable; the crate that hands words out shows it.
pub fn word_of(a: Answer) -> u64
    requires { Packable (by_number a) }
    ensures { result ≡ packed (by_number a) }
{
    let tally = tally_of(a);
    kind_of(a)
        + ONE_NUMBER * number_of(a) as u64
        + ONE_BRANCHING * tally.branchings as u64
        + ONE_DERIVED * tally.derived as u64
        + ONE_RECORD * tally.records as u64
}
