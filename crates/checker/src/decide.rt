// Deciding a book that was admitted with its order, which is completed, in work tables.
ghost use Rattle.rows.specs.Rows.{clauses};
ghost use Rattle.order.specs.Values.{assumptions_of};
ghost use Rattle.checker.specs.Work.{Runnable, HasRun};

use answer::Answer;
use book::Book;
use order::Assumptions;
use rows::state::Env;
use search::run;

// The answer, and how many clauses book and order are: the derived ones stand after them.
#[derive(Clone, Copy)]
pub struct Done {
    pub answer: Answer,
    pub given: usize,
}

// Puts the order after the book's clauses and runs the search.
pub fn decide(
    b: Book,
    o: Assumptions,
    allowance: u32,
    places: usize,
    t: &mut [u64],
    q: &mut [u64],
    rs: &mut [u64],
) -> Done
    requires { Runnable b (assumptions_of o) places t.old q.old rs.old }
    ensures { HasRun b.vars (clauses t.old b.clauses) (assumptions_of o) allowance places result t.new rs.new }
{
    let m = b.assume(o, t);
    let e = Env {
        vars: b.vars,
        allowance,
        capacity: m + places,
    };
    let found = run::run(t, q, rs, e, m);
    Done {
        answer: found,
        given: m,
    }
}
