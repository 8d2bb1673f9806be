// What the program prints for what it reads, on slices. The program itself only reads, calls `respond` and writes.
#![tactic(auto)]

ghost use Rattle.std.specs.Prelude.{◌≡◌, ◌≤◌, length};
ghost use Rattle.order.specs.Values.{order_of};
ghost use Rattle.answer.specs.Numbers.{by_number};
ghost use Rattle.contract.specs.Filled.{lengths};
ghost use Rattle.checker.specs.Lent.{tables_of, SameReferences};
ghost use Rattle.report.specs.Text.{Printed};
ghost use Rattle.reply.specs.Reply.{Answered, reply_to, order_bytes, order_in, readable, places, longest};

use answer::{Answer, Refusal};
use book::Book;
use checker::Tables;
use order::Order;

// The branching allowance of the program,
pub const ALLOWANCE: u32 = 1000000;

// the bytes of an order, its three words,
pub const ORDER_BYTES: usize = 24;

// and those of the largest book: its sizes, and two words for each clause.
const LARGEST_BOOK: usize = 3 + 16 * Book::MAX_CLAUSES;

// As much of an input as matters: an order, the largest book, and one byte more.
pub const READABLE: usize = ORDER_BYTES + (LARGEST_BOOK + 1);

// No reply is longer.
pub const LONGEST: usize = report::FIRST_LINE
    + report::CLAUSE_LINE * Book::MAX_DERIVED
    + report::RECORD_LINE * Book::MIN_RECORDS;

// Room for as much of an input as matters: zeros.
pub fn input_buffer() -> [u8; READABLE]
    ensures { readable ≡ length result }
{
    [0; READABLE]
}

// Room for every reply: zeros.
pub fn reply_buffer() -> [u8; LONGEST]
    ensures { longest ≡ length result }
{
    [0; LONGEST]
}

// Writes the reply to an input at the start of `out`, whose later bytes stay as they are, and gives its length. It is public for the
// program, whose buffer is as long as it asks.
pub fn respond(input: &[u8], out: &mut [u8]) -> usize
    requires { longest ≤ length out.old }
    ensures { Printed (reply_to input.now) out.old out.new result }
{
    let mut pos = [0u64; Book::MAX_DERIVED];
    let mut neg = [0u64; Book::MAX_DERIVED];
    let mut decided = [0u64; Book::MIN_RECORDS];
    let mut trues = [0u64; Book::MIN_RECORDS];
    let mut redundant = [0u64; Book::MIN_RECORDS];
    let tables = Tables {
        pos: &mut pos,
        neg: &mut neg,
        decided: &mut decided,
        trues: &mut trues,
        redundant: &mut redundant,
    };
    write_reply(input, tables, out)
}

// Writes the reply, by tables as long as the program's.
fn write_reply(input: &[u8], mut tables: Tables<'_>, out: &mut [u8]) -> usize
    requires places { lengths (tables_of tables) ≡ places }
    requires longest_in_bounds { longest ≤ length out.old }
    ensures { Printed (reply_to input.now) out.old out.new result }
{
    let found = check_input(input, &mut tables);
    let Tables {
        pos,
        neg,
        decided,
        trues,
        redundant,
    } = tables;
    report::write_outcome(found, pos, neg, decided, trues, redundant, out)
}

// The order in the first bytes of an input. It is public for the other program (crate `filing`), which shows that they are there.
pub fn order_in(input: &[u8]) -> Order
    requires { order_bytes ≤ length input.now }
    ensures { order_of result ≡ order_in input.now }
{
    Order {
        wanted: book::word_at(input, 0),
        unwanted: book::word_at(input, 8),
        standard: book::word_at(input, 16),
    }
}

// Checks the book that follows the order.
fn check_input(input: &[u8], tables: &mut Tables<'_>) -> Answer
    ensures same_references { SameReferences tables.old tables.new }
    ensures answered { Answered input.now (tables_of tables.old) (by_number result) (tables_of tables.new) }
{
    if input.len() < ORDER_BYTES {
        return Answer::Refused(Refusal::TooShort);
    }
    checker::check(&input[ORDER_BYTES..], order_in(input), ALLOWANCE, tables)
}
