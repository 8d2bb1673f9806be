// Steps 2 to 7 at a point, and step 1, which finds nothing here: the branching step, which calls itself on each side. The falling number is n less the decided variables.
ghost use Rattle.std.specs.Prelude.{◌≡◌, List, ℕ};
ghost use Rattle.std.specs.Int.Count.{ones};
ghost use Rattle.steps.specs.State.{undecided as Undecided};
ghost use Rattle.steps.specs.Search.{search};
ghost use Rattle.rows.specs.Values.{assignment_of, env_of};
ghost use Rattle.rows.specs.Rows.{state_of};
ghost use Rattle.rows.specs.Tally.{TalliedAt};
ghost use Rattle.enter.specs.Turns.{turn_of, counts_of};
ghost use Rattle.merge.specs.Sides.{side_of, TalliedSide};
ghost use Rattle.search.specs.Values.{halted};
ghost use Rattle.search.specs.Needs.{Point, Held};

use enter::Turn;
use merge::{Ending, Side};
use rows::clause::Assignment;
use rows::state::{Counts, Env};
use rows::{clause, records, tallies};

// What a turn that does not branch comes to.
pub fn not_branching(turn: Turn, a: Assignment) -> Side
    ensures { (t q rs : List ℕ) → (side_of t rs result ≡ halted (assignment_of a) (turn_of t rs turn)) × (TalliedAt t q rs (assignment_of a) (counts_of turn) → TalliedSide t q rs a result) }
{
    match turn {
        Turn::Back(s) => Side::Up(s),
        Turn::Satisfiable(s) => Side::Ended(Ending::Can, a, s),
        Turn::Branch(_, _, s) => Side::Up(s),
    }
}

// The search from a point: what it comes to, and the work tables as it leaves them. v is the variable whose second side the point is, 0 where it is none. The tallies
// are those of the struck set k at first, and in the end those of the place at which it goes up or ends.
// e, a, v and s are the parameters of the search in `steps`, and so v is no Option. The tables are lent one by one, here and below, so that one that is only read says so.
pub fn branch(
    t: &mut [u64],
    q: &mut [u64],
    rs: &mut [u64],
    e: Env,
    a: Assignment,
    v: u64,
    k: u64,
    s: Counts,
) -> Side
    requires { Point t.old rs.old e a s × Held t.old q.old e a k s }
    ensures { (side_of t.new rs.new result ≡ search (env_of e) (ones (Undecided (env_of e) (assignment_of a))) (assignment_of a) v (state_of t.old rs.old s)) × TalliedSide t.new q.new rs.new a result }
{
    let turn = enter::enter(t, q, rs, e, a, v, k, s);
    let Turn::Branch(w, b, here) = turn else {
        return not_branching(turn, a);
    };
    if e.allowance <= here.branchings {
        return Side::Ended(Ending::OutOfBranchings, a, here);
    }
    let down = Counts {
        branchings: here.branchings + 1,
        ..here
    };
    let struck = records::last(rs, here.records).redundant;
    tallies::decide(t, q, here.clauses, w, b);
    let first = branch(t, q, rs, e, clause::decide(a, w, b), 0, struck, down);
    let Side::Up(one) = first else {
        return first;
    };
    let last = records::last(rs, one.records);
    let kept = records::without(rs, one.records, w);
    let over = Counts {
        records: kept,
        ..one
    };
    tallies::turn(t, q, one.clauses, w, b);
    let second = branch(
        t,
        q,
        rs,
        e,
        clause::decide(a, w, !b),
        w,
        last.redundant,
        over,
    );
    let Side::Up(two) = second else {
        return second;
    };
    merge::merge(t, q, rs, e, a, w, b, last.decided, two)
}
