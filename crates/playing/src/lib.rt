// The free options settled in turn. The book is read once, into a work table, and its turns are gone through.
#![tactic(auto)]

ghost use Rattle.std.specs.Prelude.{◌≡◌};
ghost use Rattle.words.specs.Words.{members};
ghost use Rattle.order.specs.Values.{order_of};
ghost use Rattle.rows.specs.Rows.{clauses as Clauses};
ghost use Rattle.book.specs.Values.{Held};
ghost use Rattle.turns.specs.Turns.{Answers, Player.buyer, forces, response as the_response, responses as the_responses};
ghost use Rattle.turns.specs.Values.{response_of, responses_of, outcome_of, turns_of};
ghost use Rattle.playing.specs.Promises.{wins_in, PlaysBook, Tells, Forced};

use answer::Refusal;
use book::Book;
use given::Given;
use order::Order;
use rows::table;
use turn::Turn;
use turns::{Outcome, Response, Responses};

mod game;
mod given;
mod turn;

// The most free options.
const MAX_FREE: u32 = 12;
// With fewer options left than this the clauses are not narrowed: there are no more than 32 plays.
const FEW: u32 = 6;

// Whether the planner can force a plant that keeps every rule and wish, where the buyer and he settle the free options in turn, in ascending number and the buyer first;
// and his answers to the buyer's two first choices.
pub fn turns(book: &[u8], o: Order) -> Result<Outcome, Refusal>
    ensures { Answers book.now (order_of o) (turns_of result) }
{
    let mut t = [0u64; table::WORDS * Book::MAX_CLAUSES];
    let b = Book::admit(book, o, &mut t)?;
    play(b, o, &t)
}

// Plays a book that was admitted with its order, unless there are too many free options: the first clauses of `t` are its clauses.
fn play(b: Book, o: Order, t: &[u64]) -> Result<Outcome, Refusal>
    requires { Held b t.now }
    ensures { PlaysBook b.vars (Clauses t.now b.clauses) (order_of o) (turns_of result) }
{
    let order = o.complete();
    let free = o.free(b.vars);
    if MAX_FREE < words::count_of(free) {
        return Err(Refusal::TooManyInTurn);
    }
    let g = Given {
        table: t,
        clauses: b.clauses,
        order,
    };
    let first = Turn {
        left: free,
        fitted: order.pos,
    };
    Ok(tell(g, first))
}

// Whether the planner can force it on the buyer's turn, and his answers.
fn tell(g: Given, t: Turn) -> Outcome
    ensures { Tells (wins_in g.entry) t (outcome_of result) }
{
    let r = responses(g, t);
    Outcome {
        forced: forced(g, t, r),
        responses: r,
    }
}

// The planner's answers to the buyer's two choices on the next option.
fn responses(g: Given, t: Turn) -> Responses
    ensures { responses_of result ≡ the_responses (wins_in g.entry) (members t.left) t.fitted }
{
    if t.left == 0 {
        return Responses {
            out: None,
            fitted: None,
        };
    }
    Responses {
        out: respond(g, t.leave_out()),
        fitted: respond(g, t.fit()),
    }
}

// The planner's answer on the next option.
fn respond(g: Given, t: Turn) -> Option<Response>
    ensures { response_of result ≡ the_response (wins_in g.entry) (members t.left) t.fitted }
{
    if t.left == 0 {
        return None;
    }
    if serves(g, t.leave_out()) {
        return Some(Response::Out);
    }
    if serves(g, t.fit()) {
        return Some(Response::Fitted);
    }
    None
}

// Whether the planner can force it from the buyer's turn on. Where there are more than a few plays, the clauses that are kept by now are left aside.
fn serves(g: Given, t: Turn) -> bool
    ensures { result ≡ forces (wins_in g.entry) buyer (members t.left) t.fitted }
{
    if words::count_of(t.left) < FEW {
        return game::buyer(g, t);
    }
    let mut u = [0u64; table::WORDS * Book::MAX_CLAUSES];
    let clauses = narrowing::narrow(g.table, g.clauses, t.left, t.fitted, &mut u);
    let open = Given {
        table: &u,
        clauses,
        order: g.order,
    };
    game::buyer(open, t)
}

// Whether the planner can force it, where `r` has his answers. With two free options or more he can exactly if he has both answers.
fn forced(g: Given, t: Turn, r: Responses) -> bool
    requires { responses_of r ≡ the_responses (wins_in g) (members t.left) t.fitted }
    ensures { Forced (wins_in g.entry) t result }
{
    if words::count_of(t.left) < 2 {
        return game::buyer(g, t);
    }
    r.out.is_some() && r.fitted.is_some()
}
