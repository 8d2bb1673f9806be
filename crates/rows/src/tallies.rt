// The tallies of all clauses of the table, in q: a function for each change of the decisions or of the struck set. Deciding a variable, turning it over and withdrawing it
// go through the clauses of its row in the index. Striking it takes the words of its row, and a new struck set those of its variables' rows: no clause is looked at.
ghost use Rattle.std.specs.Prelude.{◌≡◌, not, List, ℕ, ◌+◌, ◌*◌, ◌^◌, ◌≤◌, ◌<◌, length};
ghost use Rattle.std.specs.Int.Bits.{bit_or};
ghost use Rattle.steps.specs.Clause.{Assignment as Decisions, decide as Decide};
ghost use Rattle.steps.specs.Run.{no_decisions};
ghost use Rattle.steps.specs.Demands.{Free};
ghost use Rattle.rows.specs.Values.{clause_of, assignment_of};
ghost use Rattle.rows.specs.Rows.{clause_words, clause_at, put_clause};
ghost use Rattle.rows.specs.Index.{tally_words, row_at, naming};
ghost use Rattle.rows.specs.Tally.{Tallied, Variable, Changing, Opened, Put, Shiftable, Shifted, Changed, Leads, Leaving};

use super::clause::{Assignment, Clause};
use super::index::Row;
use super::tally::Delta;
use super::{clause, index, table, tally};

// ---- a clause more

// The rows of the block of clause i are empty where it is the first of its block.
fn open_block(q: &mut [u64], i: usize)
    requires { tally_words (i + 1) ≤ length q.old }
    ensures { Opened q.old q.new i }
{
    if i % 64 == 0 {
        index::clear(q, i / 64);
    }
}

// Of block j the clauses `unkept` are those that no decision satisfies, and `marked` those that name a struck variable.
fn put_rows(q: &mut [u64], j: usize, unkept: u64, marked: u64)
    requires { 131 * j + 131 ≤ length q.old }
    ensures { Put q.old q.new j unkept marked }
{
    index::put_row(q, j, Row::Unsatisfied, unkept);
    index::put_row(q, j, Row::Struck, marked);
    index::put_row(q, j, Row::Playing, words::minus(unkept, marked));
}

// The clause c is that of number i, the last. The decisions are a and the struck set is k.
fn put(q: &mut [u64], i: usize, a: Assignment, k: u64, c: Clause)
    requires { tally_words (i + 1) ≤ length q.old }
    ensures { (t : List ℕ) → clause_of c ≡ clause_at t i → Tallied t q.old i (assignment_of a) k → Tallied t q.new (i + 1) (assignment_of a) k }
{
    let j = i / 64;
    let b = i % 64;
    open_block(q, i);
    let x = tally::counts_of(a, c);
    q[131 * j + b] = x;
    index::enter(q, j, words::word_of(b as u32), clause::vars(c));
    let open = index::word(q, j, Row::Unsatisfied)
        | tally::mark(tally::is_unsatisfied(x), b as u32);
    let marked = index::word(q, j, Row::Struck) | tally::mark(clause::names(k, c), b as u32);
    put_rows(q, j, open, marked);
}

// At the start nothing is decided and nothing struck.
pub fn start(t: &[u64], q: &mut [u64], m: usize)
    requires { (clause_words m ≤ length t.now) × (tally_words m ≤ length q.old) }
    ensures { Tallied t.now q.new m no_decisions 0 }
{
    let none = Assignment {
        decided: 0,
        trues: 0,
    };
    for i in 0..m {
        put(q, i, none, 0, table::clause_at(t, i));
    }
}

// One more clause, at number m. The decisions are a and the struck set is k.
pub fn add(t: &mut [u64], q: &mut [u64], m: usize, a: Assignment, k: u64, c: Clause)
    requires { (clause_words (m + 1) ≤ length t.old) × (tally_words (m + 1) ≤ length q.old) }
    ensures { (t.new ≡ put_clause t.old m (clause_of c)) × (Tallied t.old q.old m (assignment_of a) k → Tallied t.new q.new (m + 1) (assignment_of a) k) }
{
    table::put(t, m, c);
    put(q, m, a, k, c);
}

// ---- a decision

// The clauses of block j with the bits `named`, which name the variable of number v, have the counts after the change. Answers which of them no decision satisfies now.
fn shift(t: &[u64], q: &mut [u64], m: usize, j: usize, v: u32, d: Delta, named: u64) -> u64
    requires { Shiftable t.now q.old m j v d × (named ≡ row_at q.old j (naming v)) }
    ensures { Shifted t.now q.old q.new j v d named result }
{
    let mut open = 0;
    for b in words::members(named) {
        let at = 131 * j + (b as usize);
        let lits = table::literals_at(t, 64 * j + (b as usize), d.sign);
        let x = tally::change(q[at], lits, v, d);
        q[at] = x;
        open |= tally::mark(tally::is_unsatisfied(x), b);
    }
    open
}

// A change of decisions on the variable of number v, in block j.
fn change_block(t: &[u64], q: &mut [u64], m: usize, j: usize, v: u32, d: Delta)
    requires { Shiftable t.now q.old m j v d }
    ensures { Changed t.now q.old q.new j v d }
{
    let named = index::word(q, j, Row::Naming(v));
    let open = shift(t, q, m, j, v, d, named);
    let others = words::minus(index::word(q, j, Row::Unsatisfied), named);
    put_rows(q, j, others | open, index::word(q, j, Row::Struck));
}

// In all blocks.
fn change(t: &[u64], q: &mut [u64], m: usize, v: u32, d: Delta)
    requires { (tally_words m ≤ length q.old) × ((j : ℕ) → 64 * j < m → Shiftable t.now q.old m j v d) }
    ensures { (a b : Decisions) (k : ℕ) → Leads t.now m v d a b → Tallied t.now q.old m a k → Tallied t.now q.new m b k }
{
    for j in 0..index::blocks(m) {
        change_block(t, q, m, j, v, d);
    }
}

// The variable w, which was undecided, is decided with the value b.
pub fn decide(t: &[u64], q: &mut [u64], m: usize, w: u64, b: bool)
    requires { Changing t.now q.old m w (λ a. a) }
    ensures { (v : ℕ) (a : Decisions) (k : ℕ) → w ≡ 2 ^ v → Free v a → Tallied t.now q.old m a k → Tallied t.now q.new m (Decide a w b) k }
{
    change(t, q, m, words::lowest_var(w), tally::deciding(b));
}

// The decision on w, with the value b, is withdrawn, and w is decided with the other value.
pub fn turn(t: &[u64], q: &mut [u64], m: usize, w: u64, b: bool)
    requires { Changing t.now q.old m w (λ a. Decide a w b) }
    ensures { (v : ℕ) (a : Decisions) (k : ℕ) → w ≡ 2 ^ v → Free v a → Tallied t.now q.old m (Decide a w b) k → Tallied t.now q.new m (Decide a w (not b)) k }
{
    change(t, q, m, words::lowest_var(w), tally::turning(b));
}

// The decision on w, with the value b, is withdrawn.
pub fn withdraw(t: &[u64], q: &mut [u64], m: usize, w: u64, b: bool)
    requires { Changing t.now q.old m w (λ a. Decide a w b) }
    ensures { (v : ℕ) (a : Decisions) (k : ℕ) → w ≡ 2 ^ v → Free v a → Tallied t.now q.old m (Decide a w b) k → Tallied t.now q.new m a k }
{
    change(t, q, m, words::lowest_var(w), tally::withdrawing(b));
}

// ---- the struck set

// The variable w is struck. Where it answers false no clause that was in play names it.
pub fn strike(q: &mut [u64], m: usize, w: u64) -> bool
    requires { (tally_words m ≤ length q.old) × Variable w }
    ensures { ((t : List ℕ) (a : Decisions) (k : ℕ) → Tallied t q.old m a k → Tallied t q.new m a (bit_or k w)) × Leaving q.old m w result }
{
    let v = words::lowest_var(w);
    let mut gone = 0;
    for j in 0..index::blocks(m) {
        let named = index::word(q, j, Row::Naming(v));
        gone |= index::word(q, j, Row::Playing) & named;
        put_rows(
            q,
            j,
            index::word(q, j, Row::Unsatisfied),
            index::word(q, j, Row::Struck) | named,
        );
    }
    gone != 0
}

// The struck set is k from now on.
pub fn restrike(q: &mut [u64], m: usize, k: u64)
    requires { tally_words m ≤ length q.old }
    ensures { (t : List ℕ) (a : Decisions) (before : ℕ) → Tallied t q.old m a before → Tallied t q.new m a k }
{
    for j in 0..index::blocks(m) {
        put_rows(
            q,
            j,
            index::word(q, j, Row::Unsatisfied),
            index::naming(q, j, k),
        );
    }
}

// The struck set was k, and is now other. Where it is the same there is nothing to do.
pub fn unstrike(q: &mut [u64], m: usize, k: u64, other: u64)
    requires { tally_words m ≤ length q.old }
    ensures { (t : List ℕ) (a : Decisions) → Tallied t q.old m a k → Tallied t q.new m a other }
{
    if k != other {
        restrike(q, m, other);
    }
}
