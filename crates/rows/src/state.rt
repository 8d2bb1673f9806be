// What a run has in hand at a point, beside its work tables: counts, limits, and one more D-sequent.
ghost use Rattle.std.specs.Prelude.{◌≡◌, List, ℕ, ◌+◌, ◌≤◌, length};
ghost use Rattle.steps.specs.Clause.{last};
ghost use Rattle.steps.specs.State.{State, undecided as Undecided, live as Live, append as Append, append_falsified};
ghost use Rattle.rows.specs.Values.{clause_of, assignment_of, sequent_of, env_of};
ghost use Rattle.rows.specs.Rows.{sequent_words, state_of, Room};

use super::clause::{Assignment, Clause};
use super::records::DSequent;
use super::{clause, records};

// How many clauses, D-sequents and branchings there are.
#[derive(Clone, Copy)]
pub struct Counts {
    pub clauses: usize,
    pub records: usize,
    pub branchings: u32,
}

// What stays the same in a run: how many variables, how many branchings are allowed, how many clauses the table may hold.
#[derive(Clone, Copy)]
pub struct Env {
    pub vars: u32,
    pub allowance: u32,
    pub capacity: usize,
}

// The undecided variables.
pub fn undecided(e: Env, a: Assignment) -> u64
    requires { e.vars ≤ 64 }
    ensures { result ≡ Undecided (env_of e) (assignment_of a) }
{
    words::minus(words::first_of(e.vars), a.decided)
}

// The live variables, those undecided that the last D-sequent, d, does not strike.
#[tactic(auto, unfolding(steps::specs::State::live))]
pub fn live(e: Env, a: Assignment, d: DSequent) -> u64
    requires { e.vars ≤ 64 }
    ensures { (s : State) → sequent_of d ≡ last s.records → result ≡ Live (env_of e) (assignment_of a) s }
{
    words::minus(undecided(e, a), d.redundant)
}

// One more D-sequent: the decisions of a on the variables `on`, and the set k.
pub fn append(rs: &mut [u64], a: Assignment, on: u64, k: u64, s: Counts) -> Counts
    requires { sequent_words (s.records + 1) ≤ length rs.old }
    ensures { (t : List ℕ) → state_of t rs.new result ≡ Append (assignment_of a) on k (state_of t rs.old s) }
{
    let at = s.records;
    records::put(
        rs,
        at,
        DSequent {
            decided: on,
            trues: on & a.trues,
            redundant: k,
        },
    );
    Counts {
        records: at + 1,
        ..s
    }
}

// All undecided variables are redundant, by a clause that the decisions falsify.
pub fn append_falsified(rs: &mut [u64], e: Env, a: Assignment, c: Clause, s: Counts) -> Counts
    requires { Room rs.old e s }
    ensures { (t : List ℕ) → state_of t rs.new result ≡ append_falsified (env_of e) (assignment_of a) (clause_of c) (state_of t rs.old s) }
{
    append(rs, a, clause::vars(c) & a.decided, undecided(e, a), s)
}
