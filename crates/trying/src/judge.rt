// The refusals, before anything is changed.
ghost use Rattle.std.specs.Prelude.{◌≡◌, ◌++◌};
ghost use Rattle.order.specs.Values.{order_of};
ghost use Rattle.book.specs.Refusals.{first_row};
ghost use Rattle.contract.specs.Check.{table_rows};
ghost use Rattle.checker.specs.Lent.{lengths_of};
ghost use Rattle.undecided.specs.Undecided.{open_rows, undecided_rows};
ghost use Rattle.trying.specs.Values.{judged_of};

use answer::Refusal;
use book::Book;
use checker::Lengths;
use order::Order;
use rows::table;

// The most open options.
const MAX_OPEN: u32 = 10;

// The first refusal of the book, the order, the open options and the lengths of the tables.
pub fn admit(book: &[u8], o: Order, opens: u64, lengths: Lengths) -> Result<(), Refusal>
    ensures { judged_of result ≡ first_row (undecided_rows book.now (order_of o) opens (lengths_of lengths)) }
{
    let mut t = [0u64; table::WORDS * Book::MAX_CLAUSES];
    let b = Book::admit(book, o, &mut t)?;
    after_order(b.vars, o, opens, lengths)
}

// Those that follow the order's: of the open options, and of the tables.
fn after_order(vars: u32, o: Order, opens: u64, lengths: Lengths) -> Result<(), Refusal>
    ensures { judged_of result ≡ first_row (open_rows vars (order_of o) opens ++ table_rows (lengths_of lengths)) }
{
    if MAX_OPEN < words::count_of(opens) || book::names_above(vars, opens, 0) {
        return Err(Refusal::OpenOutside);
    }
    if words::meets(opens, o.wanted | o.unwanted) {
        return Err(Refusal::OpenSettled);
    }
    if lengths.fault() {
        return Err(Refusal::UnfitTables);
    }
    Ok(())
}
