// A run: the search from the starting point, and step 1's list where it ends with "cannot".
ghost use Rattle.std.specs.Prelude.{◌≡◌, List, ℕ, ◌≤◌, length};
ghost use Rattle.steps.specs.Run.{everything as Everything, finish as Finish, no_decisions, start};
ghost use Rattle.steps.specs.Search.{search};
ghost use Rattle.steps.specs.Clause.{Assignment as Decisions};
ghost use Rattle.steps.specs.State.{Side.ended as Ended};
ghost use Rattle.answer.specs.Answer.{end_of};
ghost use Rattle.answer.specs.Numbers.{by_number};
ghost use Rattle.rows.specs.Values.{env_of};
ghost use Rattle.rows.specs.Rows.{clauses, sequent_words, sequents, state_of};
ghost use Rattle.merge.specs.Sides.{ending_of, side_of};
ghost use Rattle.search.specs.Values.{tally_from, Handed, LeftTallied};
ghost use Rattle.search.specs.Needs.{Startable};

use super::branch;
use answer::{Answer, Stop, Tally};
use merge::{Ending, Side};
use rows::clause::Assignment;
use rows::records::DSequent;
use rows::state::{Counts, Env};
use rows::{records, table, tallies};

// The counts, of a table of which m clauses are book and order.
fn tally(s: Counts, m: usize) -> Tally
    ensures { result ≡ tally_from s m }
{
    Tally {
        branchings: s.branchings,
        derived: s.clauses.saturating_sub(m),
        records: s.records,
    }
}

// A verdict, or a stop.
fn told(ending: Ending, tally: Tally) -> Answer
    ensures { by_number result ≡ end_of (ending_of ending) tally }
{
    match ending {
        Ending::Can => Answer::Can(tally),
        Ending::Cannot => Answer::Cannot(tally),
        Ending::OutOfBranchings => Answer::Stopped(Stop::Branchings, tally),
        Ending::OutOfClauses => Answer::Stopped(Stop::Places, tally),
    }
}

// Step 1's list: no decisions and all variables, or nothing where there is no variable. Answers how many D-sequents it has.
fn everything(rs: &mut [u64], vars: u32) -> usize
    requires { (vars ≤ 64) × (sequent_words vars ≤ length rs.old) }
    ensures { sequents rs.new result ≡ Everything vars }
{
    if vars == 0 {
        return 0;
    }
    records::put(
        rs,
        0,
        DSequent {
            decided: 0,
            trues: 0,
            redundant: words::first_of(vars),
        },
    );
    1
}

// The end of a run that a verdict or a stop ended: "cannot" hands out step 1's list.
fn ended(rs: &mut [u64], vars: u32, m: usize, ending: Ending, s: Counts) -> Answer
    requires { (vars ≤ 64) × (sequent_words vars ≤ length rs.old) }
    ensures { (t : List ℕ) (a : Decisions) → Handed t rs.new m (by_number result) (Finish vars m (Ended (ending_of ending) a (state_of t rs.old s))) }
{
    let Ending::Cannot = ending else {
        return told(ending, tally(s, m));
    };
    let k = everything(rs, vars);
    told(ending, tally(Counts { records: k, ..s }, m))
}

// The end of a run. Back up from the starting point means "can".
fn finish(rs: &mut [u64], vars: u32, m: usize, side: Side) -> Answer
    requires { (vars ≤ 64) × (sequent_words vars ≤ length rs.old) }
    ensures { (t : List ℕ) → Handed t rs.new m (by_number result) (Finish vars m (side_of t rs.old side)) }
{
    match side {
        Side::Up(s) => told(Ending::Can, tally(s, m)),
        Side::Ended(ending, _, s) => ended(rs, vars, m, ending, s),
    }
}

// The run over the first m clauses of the table, which are book and order. Step 1 is asked here, where only the empty clause is falsified: below the starting point
// it can only be one that step 7 has just derived, which ends the run there.
pub fn run(t: &mut [u64], q: &mut [u64], rs: &mut [u64], e: Env, m: usize) -> Answer
    requires { Startable t.old q.old rs.old e m }
    ensures { Handed t.new rs.new m (by_number result) (Finish e.vars m (search (env_of e) e.vars no_decisions 0 (start (clauses t.old m)))) × LeftTallied q.new (search (env_of e) e.vars no_decisions 0 (start (clauses t.old m))) }
{
    let none = Assignment {
        decided: 0,
        trues: 0,
    };
    let begin = Counts {
        clauses: m,
        records: 0,
        branchings: 0,
    };
    tallies::start(t, q, m);
    if table::any_falsified(q, m) {
        return finish(rs, e.vars, m, Side::Ended(Ending::Cannot, none, begin));
    }
    let side = branch::branch(t, q, rs, e, none, 0, 0, begin);
    finish(rs, e.vars, m, side)
}
