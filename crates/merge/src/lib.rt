// Step 7: coming together after both sides of a branching, its variable undecided again.
#![tactic(auto)]

ghost use Rattle.std.specs.Prelude.{◌≡◌, Bool, List, ℕ, ◌≤◌, length};
ghost use Rattle.steps.specs.Sweep.{monotone as Monotone};
ghost use Rattle.steps.specs.Merge.{cover, settle as Settle, learn as Learn, join as Join, merge_on, merge as Merge};
ghost use Rattle.rows.specs.Values.{clause_of, assignment_of, env_of};
ghost use Rattle.rows.specs.Rows.{clauses, state_of, Room};
ghost use Rattle.rows.specs.Index.{tally_words};
ghost use Rattle.rows.specs.Tally.{TalliedAt};
ghost use Rattle.merge.specs.Sides.{side_of, TalliedSide};
ghost use Rattle.merge.specs.Needs.{Joinable, Learning, Testing, Mergeable, Merging};

use rows::clause::{Assignment, Clause};
use rows::records::DSequent;
use rows::state::{Counts, Env};
use rows::{clause, records, state, table, tallies};
use sweep::Literal;

// How a run ends: the two verdicts, stop 10 and stop 11.
#[derive(Clone, Copy)]
pub enum Ending {
    Can,
    Cannot,
    OutOfBranchings,
    OutOfClauses,
}

// Back up, or the end of the run with the decisions at which it was reached. It is no Result: the branching step takes each side's outcome apart by
// let..else, as the scope asks.
#[derive(Clone, Copy)]
pub enum Side {
    Up(Counts),
    Ended(Ending, Assignment, Counts),
}

// The second side's list without v's D-sequents and, where it does not strike every undecided variable but v, the join of both sides' last decisions.
// r is the first side's last decisions.
fn join(rs: &mut [u64], e: Env, a: Assignment, v: u64, r: u64, s: Counts) -> Counts
    requires { Joinable rs.old e s }
    ensures { (t : List ℕ) → state_of t rs.new result ≡ Join (env_of e) (assignment_of a) v r (state_of t rs.old s) }
{
    let second = records::last(rs, s.records);
    let k = records::without(rs, s.records, v);
    let d = records::last(rs, k);
    let rest = words::minus(state::undecided(e, a), v);
    let kept = Counts { records: k, ..s };
    if d.redundant == rest {
        return kept;
    }
    state::append(rs, a, words::minus(r | second.decided, v), rest, kept)
}

// A clause of the table that the decisions here falsify: the empty one ends the run, and every other one strikes all undecided variables.
fn settle(q: &mut [u64], rs: &mut [u64], e: Env, a: Assignment, c: Clause, s: Counts) -> Side
    requires { Room rs.old e s × (tally_words s.clauses ≤ length q.old) }
    ensures { (t : List ℕ) → (side_of t rs.new result ≡ Settle (env_of e) (assignment_of a) (clause_of c) (state_of t rs.old s)) × (TalliedAt t q.old rs.old (assignment_of a) s → TalliedSide t q.new rs.new a result) }
{
    if clause::vars(c) == 0 {
        return Side::Ended(Ending::Cannot, a, s);
    }
    tallies::restrike(q, s.clauses, state::undecided(e, a));
    Side::Up(state::append_falsified(rs, e, a, c, s))
}

// The clause of the table that covers the new one, which the decisions falsify, serves, or else the new one is added. d is the last D-sequent.
fn learn(
    t: &mut [u64],
    q: &mut [u64],
    rs: &mut [u64],
    e: Env,
    a: Assignment,
    d: DSequent,
    c: Clause,
    s: Counts,
) -> Side
    requires { Learning t.old q.old rs.old e a d (clause_of c) s }
    ensures { (side_of t.new rs.new result ≡ Learn (env_of e) (assignment_of a) (state_of t.old rs.old s) (clause_of c) (cover (clause_of c) (clauses t.old s.clauses))) × TalliedSide t.new q.new rs.new a result }
{
    let m = s.clauses;
    if let Some(known) = table::cover(t, q, m, c) {
        return settle(q, rs, e, a, known, s);
    }
    if e.capacity <= m {
        return Side::Ended(Ending::OutOfClauses, a, s);
    }
    tallies::add(t, q, m, a, d.redundant, c);
    let more = Counts {
        clauses: m + 1,
        ..s
    };
    settle(q, rs, e, a, c, more)
}

// The test for v, which is undecided again, and what comes of it. Where no clause is in play with one of its literals it is struck by that literal; else the
// lowest-numbered ones in play with each are resolved. They are the clauses that the two sides falsify.
fn test(
    t: &mut [u64],
    q: &mut [u64],
    rs: &mut [u64],
    e: Env,
    a: Assignment,
    v: u64,
    s: Counts,
) -> Side
    requires { Testing t.old q.old rs.old e a v s }
    ensures { ((b : Bool) → side_of t.new rs.new result ≡ merge_on (env_of e) (assignment_of a) v b (state_of t.old rs.old s) (Monotone (assignment_of a) (state_of t.old rs.old s) v)) × TalliedSide t.new q.new rs.new a result }
{
    let m = s.clauses;
    let d = records::last(rs, s.records);
    let Some(n) = table::in_play(t, q, m, v, false) else {
        let l = Literal {
            var: v,
            sign: false,
        };
        return Side::Up(sweep::strike_by(t, q, rs, l, a, d, s));
    };
    let Some(p) = table::in_play(t, q, m, v, true) else {
        let l = Literal { var: v, sign: true };
        return Side::Up(sweep::strike_by(t, q, rs, l, a, d, s));
    };
    learn(t, q, rs, e, a, d, clause::resolvent(v, n, p), s)
}

// Step 7 whole: v's second decision is withdrawn, and the joined list's set put in force.
pub fn merge(
    t: &mut [u64],
    q: &mut [u64],
    rs: &mut [u64],
    e: Env,
    a: Assignment,
    v: u64,
    b: bool,
    r: u64,
    s: Counts,
) -> Side
    requires { Mergeable t.old rs.old e a v b r s × Merging t.old q.old rs.old e a v b s }
    ensures { (side_of t.new rs.new result ≡ Merge (env_of e) (assignment_of a) v b r (state_of t.old rs.old s)) × TalliedSide t.new q.new rs.new a result }
{
    let second = records::last(rs, s.records);
    let joined = join(rs, e, a, v, r, s);
    let d = records::last(rs, joined.records);
    tallies::withdraw(t, q, joined.clauses, v, !b);
    tallies::unstrike(q, joined.clauses, second.redundant, d.redundant);
    test(t, q, rs, e, a, v, joined)
}
