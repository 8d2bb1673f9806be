// The printed outcome (docs/FORMAT.md), as bytes in a lent buffer.
#![tactic(auto)]

ghost use Rattle.std.specs.Prelude.{◌≤◌, length};
ghost use Rattle.answer.specs.Answer.{tally_in};
ghost use Rattle.answer.specs.Numbers.{by_number};
ghost use Rattle.report.specs.Text.{text_from, Counted, Printed, bound};

use answer::Answer;

mod lines;
mod writer;

pub use lines::printed_word;
pub use writer::Writer;

// No line is longer: a number takes a blank and at most 20 digits, the first word has at most 7 letters, and the line feed is one byte.
const NUMBER: usize = 21;

pub const FIRST_LINE: usize = 7 + 4 * NUMBER + 1;

pub const CLAUSE_LINE: usize = 1 + 2 * NUMBER + 1;

pub const RECORD_LINE: usize = 1 + 3 * NUMBER + 1;

// Writes the text of an outcome at the start of `out`, whose later bytes stay as they are, and gives its length. The
// derived clauses and the records are the first words of the tables, as many as are counted. The
// program calls it on tables and a buffer of its own, and shows that the counts are within the tables and that the buffer
// is as long as the bound on the text.
// The tables are given one by one: a struct of five shared slices would be the checker's struct over again, for one caller.
pub fn write_outcome(
    a: Answer,
    pos: &[u64],
    neg: &[u64],
    decided: &[u64],
    trues: &[u64],
    redundant: &[u64],
    out: &mut [u8],
) -> usize
    requires counted { Counted (tally_in (by_number a)) pos.now neg.now decided.now trues.now redundant.now }
    requires a_in_bounds { bound (tally_in (by_number a)).derived (tally_in (by_number a)).records ≤ length out.old }
    ensures { Printed (text_from (by_number a) pos.now neg.now decided.now trues.now redundant.now) out.old out.new result }
{
    let tally = answer::tally_of(a);
    let derived = tally.derived;
    let records = tally.records;
    let numbers = [
        answer::number_of(a) as u64,
        tally.branchings as u64,
        derived as u64,
        records as u64,
    ];
    let mut writer = Writer { out, at: 0 };
    writer.lines(
        printed_word(a),
        &numbers,
        &pos[..derived],
        &neg[..derived],
        &decided[..records],
        &trues[..records],
        &redundant[..records],
    );
    writer.at
}
