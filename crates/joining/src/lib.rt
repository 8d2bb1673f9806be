// Two books joined to one, given pairs of their options that are the same thing. Each book is read once, into a work table, and the second's clauses are put after
// the first's with their options in their places.
#![tactic(auto)]

ghost use Rattle.std.specs.Prelude.{◌≡◌, ◌+◌, ◌≤◌, length};
ghost use Rattle.rows.specs.Rows.{clause_words};
ghost use Rattle.book.specs.Limits.{max_clauses};
ghost use Rattle.joint.specs.Join.{joined_of, Joins, Fitting, too_large};
ghost use Rattle.joining.specs.Promises.{book_of, Held, Small, Sizes, Writes, JoinsBooks};

use answer::Refusal;
use book::Book;
use rows::table;

mod pairs;
mod rename;

// Joins the books, writes the joint book's bytes at the beginning of `out`, whose later bytes stay as they are, and gives how many there are. A refusal leaves all of
// `out` as it is.
pub fn join(first: &[u8], second: &[u8], pairs: &[u8], out: &mut [u8]) -> Result<usize, Refusal>
    ensures { Joins first.now second.now pairs.now out.old (joined_of result) out.new }
{
    let mut t = [0u64; table::WORDS * Book::MAX_CLAUSES];
    let a = Book::from_bytes(first, &mut t)?;
    let mut u = [0u64; table::WORDS * Book::MAX_CLAUSES];
    let b = Book::from_bytes(second, &mut u)?;
    join_books(a, b, pairs, &u, &mut t, out)
}

// Joins two books that were read: the first clauses of `t` and of `u` are theirs.
fn join_books(
    a: Book,
    b: Book,
    pairs: &[u8],
    u: &[u64],
    t: &mut [u64],
    out: &mut [u8],
) -> Result<usize, Refusal>
    requires { Held a t.old × Held b u.now }
    ensures { JoinsBooks (book_of a t.old) (book_of b u.now) pairs.now out.old (joined_of result) out.new }
{
    let paired = pairs::judge(a.vars, b.vars, pairs).ok_or(Refusal::FaultyPairs)?;
    let joint = sizes(a, b, paired);
    if too_large(joint, out.len()) {
        return Err(Refusal::JointTooLarge);
    }
    let places = pairs::places(a.vars, b.vars, pairs, paired);
    rename::append(a.clauses, b.clauses, &places, u, t);
    Ok(write(joint, t, out))
}

// How many options and clauses the joint book has, where `paired` are the second's paired options.
fn sizes(a: Book, b: Book, paired: u64) -> Book
    requires { Small a × Small b }
    ensures { Sizes a b paired result }
{
    Book {
        vars: a.vars + words::count_of(words::minus(words::first_of(b.vars), paired)),
        clauses: a.clauses + b.clauses,
    }
}

// Whether so many options and clauses are too many for a book, or their bytes for so much room.
#[tactic(auto, unfolding(joint::specs::Join::too_large))]
fn too_large(joint: Book, room: usize) -> bool
    requires { joint.clauses ≤ max_clauses + max_clauses }
    ensures { result ≡ too_large joint.vars joint.clauses room }
{
    if Book::MAX_VARS < joint.vars {
        return true;
    }
    if Book::MAX_CLAUSES < joint.clauses {
        return true;
    }
    room < 3 + 16 * joint.clauses
}

// Writes the joint book, whose clauses are the first of `t`, and gives how many bytes it has.
fn write(joint: Book, t: &[u64], out: &mut [u8]) -> usize
    requires { Fitting joint.vars joint.clauses (length out.old) × (clause_words max_clauses ≤ length t.now) }
    ensures { Writes (book_of joint t.now) out.old result out.new }
{
    book::write_book(joint, t, out).unwrap()
}
