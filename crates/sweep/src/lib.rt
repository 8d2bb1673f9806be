// Step 3: the sweep, which strikes variables that no longer matter. It goes by rule. Which clauses are in play, and which name a redundant variable, the index says.
#![tactic(auto)]

ghost use Rattle.std.specs.Prelude.{◌≡◌, false, ℕ, ◌≤◌, length};
ghost use Rattle.std.specs.Int.Bits.{bit_or};
ghost use Rattle.words.specs.Words.{members};
ghost use Rattle.steps.specs.Notes.{note as Note, notes as Notes, choice as Choice, keeper as Keeper, gather as Gather};
ghost use Rattle.steps.specs.Clause.{Assignment as Decisions, names, inactive};
ghost use Rattle.steps.specs.Sweep.{strike as Strike, sweep as Sweep};
ghost use Rattle.rows.specs.Values.{clause_of, assignment_of, env_of};
ghost use Rattle.rows.specs.Rows.{clause_words, clauses, state_of};
ghost use Rattle.rows.specs.Index.{tally_words};
ghost use Rattle.rows.specs.Tally.{Tallied, TalliedAt, Variable};
ghost use Rattle.sweep.specs.Sweep.{notes_of, literal_of, choice_of, Ready, Striking};

use rows::clause::{Assignment, Clause};
use rows::index::Row;
use rows::records::DSequent;
use rows::state::{Counts, Env};
use rows::{clause, index, records, state, table, tallies};

// The literals noted, positive and negative.
#[derive(Clone, Copy)]
struct Noted {
    pub pos: u64,
    pub neg: u64,
}

// The literal of a variable, given as a word, and a sign.
#[derive(Clone, Copy)]
pub struct Literal {
    pub var: u64,
    pub sign: bool,
}

// The turn of a clause in play: it adds its literals.
#[tactic(auto, using(crate::proofs::Noting::adds_literals))]
fn note(c: Clause, seen: Noted) -> Noted
    ensures { (a : Decisions) (k : ℕ) → inactive a k (clause_of c) ≡ false → notes_of result ≡ Note a k (clause_of c) (notes_of seen) }
{
    Noted {
        pos: seen.pos | c.pos,
        neg: seen.neg | c.neg,
    }
}

// The decision that a clause adds for the literal l, and 0 where it adds none. It names a redundant variable where `struck` says so.
#[tactic(auto, using(steps::proofs::Notes::without_literal, steps::proofs::Notes::naming_redundant, steps::proofs::Notes::adds_keeper))]
fn keeper(c: Clause, struck: bool, l: Literal, a: Assignment) -> u64
    ensures { (k : ℕ) → struck ≡ names k (clause_of c) → result ≡ Keeper (literal_of l) (assignment_of a) k (clause_of c) }
{
    if !words::meets(clause::literals(l.sign, c), l.var) {
        return 0;
    }
    if struck {
        return 0;
    }
    words::lowest_of(clause::keepers(a, c))
}

// The walk of a round: notes the literals of the clauses in play.
fn notes(t: &[u64], q: &[u64], m: usize) -> Noted
    requires { (clause_words m ≤ length t.now) × (tally_words m ≤ length q.now) }
    ensures { (a : Decisions) (k : ℕ) → Tallied t.now q.now m a k → notes_of result ≡ Notes a k (clauses t.now m) }
{
    let mut seen = Noted { pos: 0, neg: 0 };
    for i in index::both(q, m, Row::Playing, Row::Playing) {
        seen = note(table::clause_at(t, i), seen);
    }
    seen
}

// A later round: strikes the variable w, and gives the notes from then on. Where no clause in play names it they are those before, `seen`.
fn strike(t: &[u64], q: &mut [u64], m: usize, w: u64, seen: Noted) -> Noted
    requires { (clause_words m ≤ length t.now) × (tally_words m ≤ length q.old) × Variable w }
    ensures { (a : Decisions) (k : ℕ) → Tallied t.now q.old m a k → Tallied t.now q.new m a (bit_or k w) × (notes_of seen ≡ Notes a k (clauses t.now m) → notes_of result ≡ Notes a (bit_or k w) (clauses t.now m)) }
{
    if tallies::strike(q, m, w) {
        return notes(t, q, m);
    }
    seen
}

// The decisions by which the clauses with l are inactive, and those of r. It goes through the clauses that name the variable of l.
fn gather(t: &[u64], q: &[u64], m: usize, l: Literal, a: Assignment, r: u64) -> u64
    requires { (clause_words m ≤ length t.now) × (tally_words m ≤ length q.now) × Variable l.var }
    ensures { (k : ℕ) → Tallied t.now q.now m (assignment_of a) k → result ≡ Gather (literal_of l) (assignment_of a) k r (clauses t.now m) }
{
    let number = words::lowest_var(l.var);
    let mut reasons = r;
    for i in index::both(q, m, Row::Naming(number), Row::Naming(number)) {
        let struck = index::is_in(q, Row::Struck, i);
        reasons |= keeper(table::clause_at(t, i), struck, l, a);
    }
    reasons
}

// The choice from the notes: the lowest live variable with a literal that is not noted, by its negative literal if that one is not, else by its positive one.
#[tactic(auto, using(crate::proofs::Choosing::none_free, crate::proofs::Choosing::lowest_chosen, words::proofs::Sets::nonzero))]
fn choice(live: u64, seen: Noted) -> Option<Literal>
    ensures { choice_of result ≡ Choice (members live) (notes_of seen) }
{
    let free = words::minus(live, seen.pos & seen.neg);
    if free == 0 {
        return None;
    }
    let w = words::lowest_of(free);
    Some(Literal {
        var: w,
        sign: words::meets(seen.neg, w),
    })
}

// Strikes the variable of l, which passes the test by this literal, and takes no notes. d is the last D-sequent.
pub fn strike_by(
    t: &[u64],
    q: &mut [u64],
    rs: &mut [u64],
    l: Literal,
    a: Assignment,
    d: DSequent,
    s: Counts,
) -> Counts
    requires { Striking t.now q.old rs.old l (assignment_of a) d s }
    ensures { (state_of t.now rs.new result ≡ Strike (assignment_of a) l.var (Gather (literal_of l) (assignment_of a) d.redundant d.decided (clauses t.now s.clauses)) (state_of t.now rs.old s)) × TalliedAt t.now q.new rs.new (assignment_of a) result }
{
    let on = gather(t, q, s.clauses, l, a, d.decided);
    tallies::strike(q, s.clauses, l.var);
    state::append(rs, a, on, d.redundant | l.var, s)
}

// Strikes variables until none passes the test, and answers the counts as they are then. Where nothing is live there is no walk to make, and where the last live
// variable is struck nothing is left to note.
pub fn sweep(t: &[u64], q: &mut [u64], rs: &mut [u64], e: Env, a: Assignment, s: Counts) -> Counts
    requires { Ready t.now rs.old e a s × TalliedAt t.now q.old rs.old (assignment_of a) s }
    ensures { (state_of t.now rs.new result ≡ Sweep (env_of e) (assignment_of a) e.vars (state_of t.now rs.old s)) × TalliedAt t.now q.new rs.new (assignment_of a) result }
{
    let first = records::last(rs, s.records);
    if state::live(e, a, first) == 0 {
        return s;
    }
    let mut seen = notes(t, q, s.clauses);
    let mut now = s;
    loop {
        let d = records::last(rs, now.records);
        let live = state::live(e, a, d);
        let Some(l) = choice(live, seen) else {
            return now;
        };
        if live == l.var {
            return strike_by(t, q, rs, l, a, d, now);
        }
        let on = gather(t, q, now.clauses, l, a, d.decided);
        seen = strike(t, q, now.clauses, l.var, seen);
        now = state::append(rs, a, on, d.redundant | l.var, now);
    }
}
