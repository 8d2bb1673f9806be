// Writing a book as bytes: sizes first, then two parallel arrays of words.
ghost use Rattle.std.specs.Prelude.{◌≡◌, map, ◌∷◌, ◌+◌, ◌*◌, ◌≤◌, length};
ghost use Rattle.steps.specs.Clause.{literals};
ghost use Rattle.rows.specs.Rows.{clause_words, clauses as Clauses};
ghost use Rattle.book.specs.Limits.{max_vars, max_clauses};
ghost use Rattle.book.specs.Bytes.{bytes_of, flat};
ghost use Rattle.book.specs.Reading.{Reading.book};
ghost use Rattle.book.specs.Written.{placed, written_of, written_by, written_to};
ghost use Rattle.book.specs.declared.encode.WriteError.TheVariants.{Refused};

use crate::Book;
use crate::word::put_word;
use answer::Refusal;
use rows::{clause, table};

// Why nothing was written: what is refused as a book, or a buffer that is too short for its bytes.
#[derive(Clone, Copy)]
pub enum WriteError {
    Refused(Refusal),
    Short,
}

impl From<Refusal> for WriteError {
    ghost from_gives = { λ refusal e. e ≡ Refused refusal };

    fn from(refusal: Refusal) -> WriteError {
        WriteError::Refused(refusal)
    }
}

// Writes one array from `at` on: the words of one sign, the fitted ones for true.
fn put_words(t: &[u64], sign: bool, clauses: usize, at: usize, out: &mut [u8])
    requires { (clause_words clauses ≤ length t.now) × (at + 8 * clauses ≤ length out.old) }
    ensures { out.new ≡ placed out.old at (flat (map (literals sign) (Clauses t.now clauses))) }
{
    for i in 0..clauses {
        let word = clause::literals(sign, table::clause_at(t, i));
        put_word(word, at + 8 * i, out);
    }
}

// Writes the sizes at the beginning.
fn put_sizes(b: Book, out: &mut [u8])
    requires { (b.vars ≤ max_vars) × (3 ≤ length out.old) }
    ensures { out.new ≡ placed out.old 0 (b.vars ∷ bytes_of 2 b.clauses) }
{
    out[0] = (b.vars % 256) as u8;
    out[1] = (b.clauses % 256) as u8;
    out[2] = (b.clauses / 256 % 256) as u8;
}

// Writes the bytes of the book whose clauses are the table's first, where they fit. Public for a crate that makes a book, and shows that it is one.
pub fn write_book(b: Book, t: &[u64], out: &mut [u8]) -> Result<usize, WriteError>
    requires { (b.vars ≤ max_vars) × (b.clauses ≤ max_clauses) × (clause_words b.clauses ≤ length t.now) }
    ensures value { written_by result ≡ written_of (length out.old) (book b.vars (Clauses t.now b.clauses)) }
    ensures out_after { out.new ≡ written_to out.old (book b.vars (Clauses t.now b.clauses)) }
{
    let size = 3 + 16 * b.clauses;
    if out.len() < size {
        return Err(WriteError::Short);
    }
    put_sizes(b, out);
    put_words(t, true, b.clauses, 3, out);
    put_words(t, false, b.clauses, 3 + 8 * b.clauses, out);
    Ok(size)
}
