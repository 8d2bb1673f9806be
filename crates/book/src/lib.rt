// The book: its limits, reading it from bytes into a work table, its order, and writing it as bytes.
#![tactic(auto)]

ghost use Rattle.std.specs.Prelude.{◌≡◌, ◌+◌, ◌≤◌, length};
ghost use Rattle.steps.specs.Run.{units, given};
ghost use Rattle.order.specs.Values.{assumptions_of, order_of};
ghost use Rattle.rows.specs.Rows.{clause_words, clauses as Clauses};
ghost use Rattle.book.specs.Limits.{max_clauses};
ghost use Rattle.book.specs.Reading.{read as Read, admit as Admit, read_table};
ghost use Rattle.book.specs.Values.{reading_of};
ghost use Rattle.book.specs.Written.{written_of, written_by, written_to};

mod encode;
mod judge;
mod read;
mod units;
mod word;

use answer::Refusal;
pub use encode::{WriteError, write_book};
pub use judge::names_above;
use order::{Assumptions, Order};
pub use word::word_at;

// A book, without its clauses: how many variables (n) and how many clauses (m) it has. The clauses are the first of a work table.
#[derive(Clone, Copy)]
pub struct Book {
    pub vars: u32,
    pub clauses: usize,
}

impl Book {
    // The limits of a book: variables and clauses,
    pub const MAX_VARS: u32 = 64;

    pub const MAX_CLAUSES: usize = 1024;
    // the most places for derived clauses, and the fewest for records.
    pub const MAX_DERIVED: usize = 2048;

    pub const MIN_RECORDS: usize = 64;

    // What the bytes are. They are read once, into the work table, and the clauses are judged there: the table's first clauses are the book's.
    // On a refusal nothing is said of the table.
    pub fn from_bytes(bytes: &[u8], t: &mut [u64]) -> Result<Book, Refusal>
        requires { clause_words max_clauses ≤ length t.old }
        ensures { reading_of result t.new ≡ Read bytes.now }
    {
        if bytes.len() < 3 {
            return Err(Refusal::TooShort);
        }
        let vars = u32::from(bytes[0]);
        let clauses = usize::from(u16::from_le_bytes([bytes[1], bytes[2]]));
        let b = judge::judge_sizes(vars, clauses)?;
        if bytes.len() != 3 + 16 * clauses {
            return Err(Refusal::WrongLength);
        }
        read::copy_clauses(bytes, clauses, t);
        judge::judge_rules(b, t)
    }

    // What bytes and an order to them are. Refusals of the bytes come before those of the order.
    pub fn admit(bytes: &[u8], o: Order, t: &mut [u64]) -> Result<Book, Refusal>
        requires { clause_words max_clauses ≤ length t.old }
        ensures { reading_of result t.new ≡ Admit bytes.now (order_of o) }
    {
        let b = Self::from_bytes(bytes, t)?;
        judge::judge_order(b, o)
    }

    // What sizes and a table are: the table has the words of so many clauses and nothing else.
    pub fn from_words(vars: u32, clauses: usize, t: &[u64]) -> Result<Book, Refusal>
        ensures { reading_of result t.now ≡ read_table vars clauses t.now }
    {
        let b = judge::judge_sizes(vars, clauses)?;
        if t.len() != rows::table::WORDS * clauses {
            return Err(Refusal::WrongLength);
        }
        judge::judge_rules(b, t)
    }

    // Puts the clauses of a completed order into the table after the book's, and gives the number of clauses that it then has.
    // An order that was admitted has no more clauses than the book has variables.
    pub fn assume(self, o: Assumptions, t: &mut [u64]) -> usize
        requires { clause_words (self.clauses + length (units (assumptions_of o))) ≤ length t.old }
        ensures { Clauses t.new result ≡ given (Clauses t.old self.clauses) (assumptions_of o) }
    {
        let count = units::add_units(true, o.pos, self.clauses, t);
        units::add_units(false, o.neg, count, t)
    }

    // Writes the book's bytes to the beginning of a lent buffer. A table that is no book of these sizes, and a buffer that is
    // too short, leave the buffer as it was.
    pub fn to_bytes(self, t: &[u64], out: &mut [u8]) -> Result<usize, WriteError>
        ensures value { written_by result ≡ written_of (length out.old) (read_table self.vars self.clauses t.now) }
        ensures out_after { out.new ≡ written_to out.old (read_table self.vars self.clauses t.now) }
    {
        let b = Self::from_words(self.vars, self.clauses, t)?;
        encode::write_book(b, t, out)
    }
}
