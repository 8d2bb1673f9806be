// Copying the clauses of book bytes into a work table, the one copy that is made of them.
ghost use Rattle.std.specs.Prelude.{◌≡◌, ◌≤◌, length};
ghost use Rattle.rows.specs.Rows.{clause_words, clauses as Clauses};
ghost use Rattle.book.specs.Bytes.{book_bytes, clauses_in};

use crate::word::word_at;
use rows::clause::Clause;
use rows::table;

// The table's first clauses are those of the bytes: m fitted words, then m left-out words.
pub fn copy_clauses(bytes: &[u8], clauses: usize, t: &mut [u64])
    requires { (length bytes.now ≡ book_bytes clauses) × (clause_words clauses ≤ length t.old) }
    ensures { Clauses t.new clauses ≡ clauses_in clauses bytes.now }
{
    for i in 0..clauses {
        let c = Clause {
            pos: word_at(bytes, 3 + 8 * i),
            neg: word_at(bytes, 3 + 8 * (clauses + i)),
        };
        table::put(t, i, c);
    }
}
