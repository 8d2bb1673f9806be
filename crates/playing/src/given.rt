// What a choice has to keep.
ghost use Rattle.std.specs.Prelude.{◌≤◌, length};
ghost use Rattle.rows.specs.Rows.{clause_words};
ghost use Rattle.book.specs.Limits.{max_clauses};

use order::Assumptions;

// So many clauses of a work table, no more than a book has, and the completed order.
#[derive(Clone, Copy)]
pub struct Given<'a> {
    pub table: &'a [u64],
    pub clauses: usize,
    pub order: Assumptions,
    ghost in_table: { clause_words clauses ≤ length table.now },
    ghost few: { clauses ≤ max_clauses },
}
