// The entry point: book bytes, an order, an allowance and lent tables in; a verdict, a refusal or a stop out, with the tables filled.
#![tactic(auto)]

ghost use Rattle.rows.specs.Rows.{clauses};
ghost use Rattle.answer.specs.Numbers.{by_number};
ghost use Rattle.order.specs.Values.{order_of, assumptions_of};
ghost use Rattle.contract.specs.Filled.{Checked};
ghost use Rattle.checker.specs.Lent.{tables_of, SameReferences};
ghost use Rattle.checker.specs.Work.{Workable, Promised};

use answer::{Answer, Refusal};
use book::Book;
use order::{Assumptions, Order};
use rows::{index, records, table};

mod decide;
mod tables;

pub use tables::{Lengths, Tables};

// Checks the book and the order. The derived rules go into the first places of `pos` and `neg`, whose length is the places; the records into
// those of `decided`, `trues` and `redundant`.
pub fn check(book: &[u8], o: Order, allowance: u32, tables: &mut Tables<'_>) -> Answer
    ensures same_references { SameReferences tables.old tables.new }
    ensures checked { Checked book.now (order_of o) allowance (tables_of tables.old) (by_number result) (tables_of tables.new) }
{
    let mut t = [0u64; table::WORDS
        * (Book::MAX_CLAUSES + (Book::MAX_VARS as usize) + Book::MAX_DERIVED)];
    match Book::admit(book, o, &mut t) {
        Err(refusal) => Answer::Refused(refusal),
        Ok(b) => run_book(b, o.complete(), allowance, &mut t, tables),
    }
}

// Runs a book that was admitted with its order, here completed, and whose clauses the work table holds, unless the lent tables are refused.
fn run_book(
    b: Book,
    o: Assumptions,
    allowance: u32,
    t: &mut [u64],
    tables: &mut Tables<'_>,
) -> Answer
    requires { Workable b (assumptions_of o) t.old }
    ensures same_references { SameReferences tables.old tables.new }
    ensures promised { Promised b.vars (clauses t.old b.clauses) (assumptions_of o) allowance (tables_of tables.old) (by_number result) (tables_of tables.new) }
{
    let lengths = tables.lengths();
    if lengths.fault() {
        return Answer::Refused(Refusal::UnfitTables);
    }
    let mut q = [0u64; index::WORDS
        * ((Book::MAX_CLAUSES + (Book::MAX_VARS as usize) + Book::MAX_DERIVED + index::BLOCK - 1)
            / index::BLOCK)];
    let mut rs = [0u64; records::WORDS * (Book::MAX_VARS as usize)];
    let done = decide::decide(b, o, allowance, lengths.pos, t, &mut q, &mut rs);
    let found = done.answer;
    let tally = answer::tally_of(found);
    tables.fill(t, &rs, done.given, tally);
    found
}
