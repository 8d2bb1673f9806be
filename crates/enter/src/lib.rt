// Steps 2 to 4 and the choice of step 5: what there is to do at a branching point.
#![tactic(auto)]

ghost use Rattle.std.specs.Prelude.{◌≡◌};
ghost use Rattle.steps.specs.Enter.{swept as Swept, enter as Enter};
ghost use Rattle.rows.specs.Values.{assignment_of, env_of};
ghost use Rattle.rows.specs.Rows.{state_of};
ghost use Rattle.rows.specs.Tally.{TalliedAt};
ghost use Rattle.enter.specs.Turns.{turn_of, counts_of, Entering};
ghost use Rattle.sweep.specs.Sweep.{Ready};

use rows::clause::Assignment;
use rows::state::{Counts, Env};
use rows::{clause, records, state, table, tallies};

// Go back up, end with "can", or branch over a variable with the value of its first side.
#[derive(Clone, Copy)]
pub enum Turn {
    Back(Counts),
    Satisfiable(Counts),
    Branch(u64, bool, Counts),
}

// Step 4, and else step 5: the unit clause's variable, its number by trailing zeros, or else the lowest live one.
fn swept(t: &[u64], q: &[u64], rs: &[u64], e: Env, a: Assignment, s: Counts) -> Turn
    requires { Ready t.now rs.now e a s × TalliedAt t.now q.now rs.now (assignment_of a) s }
    ensures { (turn_of t.now rs.now result ≡ Swept (env_of e) (assignment_of a) (state_of t.now rs.now s)) × (counts_of result ≡ s) }
{
    let m = s.clauses;
    let d = records::last(rs, s.records);
    let live = state::live(e, a, d);
    if live == 0 {
        if table::any_falsified(q, m) {
            return Turn::Back(s);
        }
        return Turn::Satisfiable(s);
    }
    let Some(c) = table::unit_clause(t, q, m) else {
        return Turn::Branch(words::lowest_of(live), false, s);
    };
    let number = words::lowest_var(words::minus(clause::vars(c), a.decided));
    Turn::Branch(
        words::word_of(number),
        words::minus(c.pos, a.decided) != 0,
        s,
    )
}

// Steps 2 to 5. On a first side v is 0, as in `steps`. The tallies are those of the struck set k: on a second side that of the first, all undecided variables, which
// step 2 strikes too, so that it makes no walk to put the list's set in force.
pub fn enter(
    t: &[u64],
    q: &mut [u64],
    rs: &mut [u64],
    e: Env,
    a: Assignment,
    v: u64,
    k: u64,
    s: Counts,
) -> Turn
    requires { Ready t.now rs.old e a s × Entering t.now q.old e a k s }
    ensures { (turn_of t.now rs.new result ≡ Enter (env_of e) (assignment_of a) v (state_of t.now rs.old s)) × TalliedAt t.now q.new rs.new (assignment_of a) (counts_of result) }
{
    let m = s.clauses;
    let d = records::last(rs, s.records);
    let Some(c) = table::falsified_naming(t, q, m, v) else {
        tallies::unstrike(q, m, k, d.redundant);
        let after = sweep::sweep(t, q, rs, e, a, s);
        return swept(t, q, rs, e, a, after);
    };
    if state::live(e, a, d) == 0 {
        tallies::unstrike(q, m, k, d.redundant);
        return Turn::Back(s);
    }
    tallies::unstrike(q, m, k, state::undecided(e, a));
    Turn::Back(state::append_falsified(rs, e, a, c, s))
}
