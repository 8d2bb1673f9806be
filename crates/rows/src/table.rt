// The clause table: m clauses, each two words, the positive literals and then the negative ones. It is a slice of words, since the theorems on `Book::from_words` and
// `read_table` speak of such a table.
ghost use Rattle.std.specs.Prelude.{◌≡◌, true, false, List, ℕ, ◌+◌, ◌≤◌, length};
ghost use Rattle.steps.specs.Lists.{any, find};
ghost use Rattle.words.specs.Words.{meets};
ghost use Rattle.steps.specs.Clause.{Assignment as Decisions, literals as Literals, falsified as Falsified};
ghost use Rattle.steps.specs.Enter.{unit as Unit, falsified_naming};
ghost use Rattle.steps.specs.Notes.{in_play};
ghost use Rattle.steps.specs.Merge.{cover as Cover};
ghost use Rattle.rows.specs.Values.{clause_of, found_of};
ghost use Rattle.rows.specs.Rows.{clause_words, clause_at, clauses, put_clause};
ghost use Rattle.rows.specs.Index.{tally_words};
ghost use Rattle.rows.specs.Tally.{Tallied, Variable};

use super::clause::Clause;
use super::index::Row;
use super::{clause, index, tally};

// How many words a clause takes.
pub const WORDS: usize = 2;

// The clause of number i. Loops over the clauses go by number, as the definitions `clauses` and `from` do.
pub fn clause_at(t: &[u64], i: usize) -> Clause
    requires { clause_words (i + 1) ≤ length t.now }
    ensures { clause_of result ≡ clause_at t.now i }
{
    Clause {
        pos: t[2 * i],
        neg: t[2 * i + 1],
    }
}

// The literals of one sign of the clause of number i.
pub fn literals_at(t: &[u64], i: usize, sign: bool) -> u64
    requires { clause_words (i + 1) ≤ length t.now }
    ensures { result ≡ Literals sign (clause_at t.now i) }
{
    if sign { t[2 * i] } else { t[2 * i + 1] }
}

// Step 4, and step 1 where nothing is decided: the decisions falsify a clause.
pub fn any_falsified(q: &[u64], m: usize) -> bool
    requires { tally_words m ≤ length q.now }
    ensures { (t : List ℕ) (a : Decisions) (k : ℕ) → meets k a.decided ≡ false → Tallied t q.now m a k → result ≡ any (Falsified a) (clauses t m) }
{
    let mut playing = index::both(q, m, Row::Playing, Row::Playing);
    playing.any(|i| tally::is_falsified(index::count(q, i)))
}

// Step 2: the lowest-numbered falsified clause that names v. No clause names the empty word, which stands for a first side.
pub fn falsified_naming(t: &[u64], q: &[u64], m: usize, v: u64) -> Option<Clause>
    requires { (clause_words m ≤ length t.now) × (tally_words m ≤ length q.now) }
    ensures { (a : Decisions) (k : ℕ) → meets k a.decided ≡ false → Tallied t.now q.now m a k → found_of result ≡ falsified_naming v a (clauses t.now m) }
{
    if v == 0 {
        return None;
    }
    let mut playing = index::both(q, m, Row::Playing, Row::Playing);
    let i = playing.find(|i| {
        tally::is_falsified(index::count(q, *i)) && clause::names(v, clause_at(t, *i))
    })?;
    Some(clause_at(t, i))
}

// Step 5: the lowest-numbered clause with exactly one undecided literal, not satisfied and naming nothing redundant.
pub fn unit_clause(t: &[u64], q: &[u64], m: usize) -> Option<Clause>
    requires { (clause_words m ≤ length t.now) × (tally_words m ≤ length q.now) }
    ensures { (a : Decisions) (k : ℕ) → Tallied t.now q.now m a k → found_of result ≡ find (Unit a k) (clauses t.now m) }
{
    let mut playing = index::both(q, m, Row::Playing, Row::Playing);
    let i = playing.find(|i| tally::is_single(index::count(q, *i)))?;
    Some(clause_at(t, i))
}

// Step 7: the lowest-numbered clause that is in play with the literal of v and the sign.
pub fn in_play(t: &[u64], q: &[u64], m: usize, v: u64, sign: bool) -> Option<Clause>
    requires { (clause_words m ≤ length t.now) × (tally_words m ≤ length q.now) × Variable v }
    ensures { (a : Decisions) (k : ℕ) → Tallied t.now q.now m a k → found_of result ≡ find (in_play (record { var = v; sign = sign }) a k) (clauses t.now m) }
{
    let number = words::lowest_var(v);
    let mut naming = index::both(q, m, Row::Playing, Row::Naming(number));
    let i = naming.find(|i| words::meets(literals_at(t, *i, sign), v))?;
    Some(clause_at(t, i))
}

// Step 7: the lowest-numbered clause of the table that covers c. The decisions falsify c, and so every clause that covers it. The first one ends the walk.
pub fn cover(t: &[u64], q: &[u64], m: usize, c: Clause) -> Option<Clause>
    requires { (clause_words m ≤ length t.now) × (tally_words m ≤ length q.now) }
    ensures { (a : Decisions) (k : ℕ) → meets k a.decided ≡ false → Falsified a (clause_of c) ≡ true → Tallied t.now q.now m a k → found_of result ≡ Cover (clause_of c) (clauses t.now m) }
{
    let mut playing = index::both(q, m, Row::Playing, Row::Playing);
    let i = playing.find(|i| {
        tally::is_falsified(index::count(q, *i)) && clause::covers(clause_at(t, *i), c)
    })?;
    Some(clause_at(t, i))
}

// Puts the clause at number i.
#[tactic(auto, unfolding(crate::specs::Rows::put_clause))]
pub fn put(t: &mut [u64], i: usize, c: Clause)
    requires { clause_words (i + 1) ≤ length t.old }
    ensures { t.new ≡ put_clause t.old i (clause_of c) }
{
    t[2 * i] = c.pos;
    t[2 * i + 1] = c.neg;
}
