// Refusals 2 and 3: judging the sizes of a book. Refusals 5 and 6: judging its clauses, in the table. Refusals 7, 8 and 12: judging an order to it.
ghost use Rattle.std.specs.Prelude.{◌≡◌, List, ℕ, ◌≤◌, length};
ghost use Rattle.order.specs.Values.{order_of};
ghost use Rattle.rows.specs.Rows.{clause_words, clauses};
ghost use Rattle.book.specs.Refusals.{above};
ghost use Rattle.book.specs.Reading.{read_rules, read_order};
ghost use Rattle.book.specs.Values.{reading_of, SizesJudged};

use crate::Book;
use answer::Refusal;
use order::Order;
use rows::table;

// Whether two words name a variable that is not among the first n.
pub fn names_above(n: u32, pos: u64, neg: u64) -> bool
    ensures { result ≡ above n pos neg }
{
    words::minus(pos | neg, words::first_of(n)) != 0
}

// The refusal of sizes above the limits, or a book of these sizes.
pub fn judge_sizes(vars: u32, clauses: usize) -> Result<Book, Refusal>
    ensures { SizesJudged vars clauses result }
{
    if Book::MAX_VARS < vars {
        return Err(Refusal::TooManyOptions);
    }
    if Book::MAX_CLAUSES < clauses {
        return Err(Refusal::TooManyRules);
    }
    Ok(Book { vars, clauses })
}

// The refusal of the lowest-numbered faulty clause, or the book.
pub fn judge_rules(b: Book, t: &[u64]) -> Result<Book, Refusal>
    requires { clause_words b.clauses ≤ length t.now }
    ensures { reading_of result t.now ≡ read_rules b.vars (clauses t.now b.clauses) }
{
    for i in 0..b.clauses {
        let c = table::clause_at(t, i);
        let above = names_above(b.vars, c.pos, c.neg);
        let both = words::meets(c.pos, c.neg);
        if above {
            return Err(Refusal::RuleAbove);
        }
        if both {
            return Err(Refusal::RuleHasBoth);
        }
    }
    Ok(b)
}

// The refusal of an order to a book, or the book, whatever its clauses are.
pub fn judge_order(b: Book, o: Order) -> Result<Book, Refusal>
    ensures { (t : List ℕ) → reading_of result t ≡ read_order b.vars (clauses t b.clauses) (order_of o) }
{
    let above = names_above(b.vars, o.wanted, o.unwanted);
    let both = words::meets(o.wanted, o.unwanted);
    let standard = names_above(b.vars, o.standard, 0);
    if above {
        return Err(Refusal::OptionAbove);
    }
    if both {
        return Err(Refusal::OrderHasBoth);
    }
    if standard {
        return Err(Refusal::StandardAbove);
    }
    Ok(b)
}
