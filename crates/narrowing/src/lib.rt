// The clauses that are still open: those that no settled option keeps. A book that is narrowed to them once is sooner gone through, choice by choice. Both functions are
// public for the crates that go through choices; their callers see to what `narrow` asks.
#![tactic(auto)]

ghost use Rattle.std.specs.Prelude.{◌≡◌, ◌≤◌, length};
ghost use Rattle.rows.specs.Rows.{clause_words, clauses as Clauses};
ghost use Rattle.rows.specs.Values.{clause_of};
ghost use Rattle.narrowing.specs.Narrowing.{is_kept, Narrowed};

use rows::clause::Clause;
use rows::table;

// Puts the clauses that are open into the table `u`, and gives how many there are. The options `left` are still to settle, and `fitted` has what is fitted.
pub fn narrow(t: &[u64], clauses: usize, left: u64, fitted: u64, u: &mut [u64]) -> usize
    requires { (clause_words clauses ≤ length t.now) × (clause_words clauses ≤ length u.old) }
    ensures { Narrowed left fitted (Clauses t.now clauses) (Clauses u.new result) }
{
    let mut count = 0;
    for i in 0..clauses {
        let c = table::clause_at(t, i);
        if !is_kept(c, left, fitted) {
            table::put(u, count, c);
            count += 1;
        }
    }
    count
}

// Whether a settled option keeps the clause: it is fitted, or it is left out and not to be settled any more.
pub fn is_kept(c: Clause, left: u64, fitted: u64) -> bool
    ensures { result ≡ is_kept left fitted (clause_of c) }
{
    ((c.pos & fitted) | words::minus(c.neg, left | fitted)) != 0
}
