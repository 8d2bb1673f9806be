// The clauses of a completed order, one of one literal for each wanted or unwanted variable.
ghost use Rattle.std.specs.Prelude.{◌≡◌, ◌++◌, ◌+◌, ◌≤◌, length};
ghost use Rattle.rows.specs.Rows.{clause_words, clauses as Clauses};
ghost use Rattle.rows.specs.Values.{clause_of};
ghost use Rattle.book.specs.Units.{unit_of, units_of};

use rows::clause::Clause;
use rows::table;

// The clause of one literal, a positive one for true.
fn unit_of(positive: bool, word: u64) -> Clause
    ensures { clause_of result ≡ unit_of positive word }
{
    if positive {
        Clause { pos: word, neg: 0 }
    } else {
        Clause { pos: 0, neg: word }
    }
}

// Puts a clause for each member of `word`, lowest first, into a table that has so many clauses, and gives how many it then has.
pub fn add_units(positive: bool, word: u64, clauses: usize, t: &mut [u64]) -> usize
    requires { clause_words (clauses + length (units_of positive word)) ≤ length t.old }
    ensures { Clauses t.new result ≡ Clauses t.old clauses ++ units_of positive word }
{
    let mut count = clauses;
    for k in words::members(word) {
        table::put(t, count, unit_of(positive, words::word_of(k)));
        count += 1;
    }
    count
}
