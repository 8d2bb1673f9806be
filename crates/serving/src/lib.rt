// A morning's orders: 1 to 16 of them against one book, each checked with the whole allowance and with its own part of the lent tables.
#![tactic(auto)]

ghost use Rattle.std.specs.Prelude.{◌≡◌, ◌+◌, ◌*◌, ◌≤◌, ◌<◌, length};
ghost use Rattle.answer.specs.Numbers.{by_number};
ghost use Rattle.order.specs.Values.{order_of};
ghost use Rattle.contract.specs.Filled.{lent, Checked};
ghost use Rattle.checker.specs.Lent.{tables_of, SameReferences};
ghost use Rattle.morning.specs.Morning.{order_at, orders_fault, Serves};
ghost use Rattle.serving.specs.Promises.{number_of, PartIn, ServedPart};

use answer::{Answer, Refusal};
use checker::Tables;
use order::Order;
use std::ops::Range;

// The most orders of a morning.
const MAX_ORDERS: usize = 16;

// An order's words: the wanted options, the unwanted ones and the standard ones.
const ORDER_WORDS: usize = 3;

// Serves a morning: `orders` has three words an order, and `answers` a place for the word of each order's answer (crate `answer`, `packed`). Each of the
// five tables is cut by its own length into as many equal parts as there are orders, from the first place on. It is refused where the number of orders is
// not 1 to 16 or the words are not three an order; then nothing is changed.
pub fn morning(
    book: &[u8],
    orders: &[u64],
    allowance: u32,
    answers: &mut [u64],
    tables: &mut Tables<'_>,
) -> Result<(), Refusal>
    ensures same_references { SameReferences tables.old tables.new }
    ensures serves { Serves book.now orders.now allowance answers.old (tables_of tables.old) (number_of result) answers.new (tables_of tables.new) }
{
    let k = answers.len();
    if fault(orders.len(), k) {
        return Err(Refusal::NumberOfOrders);
    }
    for (i, answer) in answers.iter_mut().enumerate() {
        *answer = serve(book, order_at(orders, i), allowance, k, i, tables);
    }
    Ok(())
}

// The refusal, judged on the numbers of words and of answers.
#[tactic(auto, unfolding(morning::specs::Morning::orders_fault))]
fn fault(words: usize, answers: usize) -> bool
    ensures { result ≡ orders_fault words answers }
{
    answers < 1 || MAX_ORDERS < answers || words != ORDER_WORDS * answers
}

// Order i.
fn order_at(orders: &[u64], i: usize) -> Order
    requires { 3 * (i + 1) ≤ length orders.now }
    ensures { order_of result ≡ order_at orders.now i }
{
    let at = ORDER_WORDS * i;
    Order {
        wanted: orders[at],
        unwanted: orders[at + 1],
        standard: orders[at + 2],
    }
}

// The places of part i of k, in a table of so many places.
#[tactic(auto, using(morning::proofs::Parts::places_fit))]
fn part(k: usize, i: usize, places: usize) -> Range<usize>
    requires { i < k }
    ensures { PartIn k i places result.start result.end }
{
    let share = places / k;
    let from = i * share;
    from..from + share
}

// Checks order i of k with its part of each table.
fn serve(book: &[u8], o: Order, allowance: u32, k: usize, i: usize, tables: &mut Tables<'_>) -> u64
    requires { i < k }
    ensures same_references { SameReferences tables.old tables.new }
    ensures served { ServedPart book.now (order_of o) allowance k i (tables_of tables.old) result (tables_of tables.new) }
{
    let in_pos = part(k, i, tables.pos.len());
    let in_neg = part(k, i, tables.neg.len());
    let in_decided = part(k, i, tables.decided.len());
    let in_trues = part(k, i, tables.trues.len());
    let in_redundant = part(k, i, tables.redundant.len());
    let found = check_on(
        book,
        o,
        allowance,
        &mut tables.pos[in_pos],
        &mut tables.neg[in_neg],
        &mut tables.decided[in_decided],
        &mut tables.trues[in_trues],
        &mut tables.redundant[in_redundant],
    );
    answer::word_of(found)
}

// Checks an order on tables that are lent as five slices: of a struct that borrows parts of slices the proof knows only their lengths afterwards.
fn check_on(
    book: &[u8],
    o: Order,
    allowance: u32,
    pos: &mut [u64],
    neg: &mut [u64],
    decided: &mut [u64],
    trues: &mut [u64],
    redundant: &mut [u64],
) -> Answer
    ensures { Checked book.now (order_of o) allowance (lent pos.old neg.old decided.old trues.old redundant.old) (by_number result) (lent pos.new neg.new decided.new trues.new redundant.new) }
{
    let mut tables = Tables {
        pos,
        neg,
        decided,
        trues,
        redundant,
    };
    checker::check(book, o, allowance, &mut tables)
}
