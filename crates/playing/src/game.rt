// The turns. A choice that does not serve ends its branch at once. The buyer's turn and the planner's are two functions that call each other, as the scope names the form.
ghost use Rattle.std.specs.Prelude.{◌≡◌, not};
ghost use Rattle.words.specs.Words.{members};
ghost use Rattle.steps.specs.Meaning.{satisfies, models, obeys};
ghost use Rattle.order.specs.Values.{assumptions_of};
ghost use Rattle.rows.specs.Rows.{clauses as Clauses};
ghost use Rattle.rows.specs.Values.{clause_of};
ghost use Rattle.turns.specs.Turns.{forces, Player.buyer as Buyer, Player.planner as Planner};
ghost use Rattle.playing.specs.Promises.{wins_in};

use crate::given::Given;
use crate::turn::Turn;
use order::Assumptions;
use rows::clause::Clause;
use rows::table;

// Whether the planner can force it where the buyer settles the next option: he can after both choices of the buyer's.
#[cycle(buyer_planner)]
pub fn buyer(g: Given, t: Turn) -> bool
    ensures { result ≡ forces (wins_in g.entry) Buyer (members t.left) t.fitted }
{
    if t.left == 0 {
        return wins(g, t.fitted);
    }
    planner(g, t.leave_out()) && planner(g, t.fit())
}

// The same where the planner settles it: he can after one of his two choices.
#[cycle(buyer_planner)]
fn planner(g: Given, t: Turn) -> bool
    ensures { result ≡ forces (wins_in g.entry) Planner (members t.left) t.fitted }
{
    if t.left == 0 {
        return wins(g, t.fitted);
    }
    buyer(g, t.leave_out()) || buyer(g, t.fit())
}

// Whether the choice keeps every wish and every rule.
#[tactic(auto, unfolding(turns::specs::Turns::wins))]
fn wins(g: Given, x: u64) -> bool
    ensures { result ≡ wins_in g.entry x }
{
    keeps_wishes(g.order, x) && keeps_rules(g, x)
}

// Whether the choice keeps every wish.
fn keeps_wishes(o: Assumptions, x: u64) -> bool
    ensures { result ≡ obeys x (assumptions_of o) }
{
    if words::meets(o.neg, x) {
        return false;
    }
    words::minus(o.pos, x) == 0
}

// Whether the choice keeps every rule.
fn keeps_rules(g: Given, x: u64) -> bool
    ensures { result ≡ models x (Clauses g.entry.table.now g.entry.clauses) }
{
    for i in 0..g.clauses {
        if breaks(table::clause_at(g.table, i), x) {
            return false;
        }
    }
    true
}

// Whether the choice breaks the clause.
fn breaks(c: Clause, x: u64) -> bool
    ensures { result ≡ not (satisfies x (clause_of c)) }
{
    ((c.pos & x) | words::minus(c.neg, x)) == 0
}
