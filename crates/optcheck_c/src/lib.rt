// The check, the page, the morning, open options, the terminal, the desk, joined books, turns and the cheapest plant for C and Rust: exported functions on numbers and slices (rust/optcheck/include/optcheck.h is their header).
// Slices and words stand one by one, as C lends them.
#![tactic(auto)]

ghost use Rattle.std.specs.Prelude.{◌≡◌};
ghost use Rattle.contract.specs.Filled.{lent};
ghost use Rattle.page.specs.Filed.{Filed};
ghost use Rattle.morning.specs.Morning.{Serves};
ghost use Rattle.undecided.specs.Told.{Told};
ghost use Rattle.sites.specs.Handed.{terminal_of, HandsOpening, HandsSite};
ghost use Rattle.drafts.specs.Desk.{Makes, Alters, Call.set, Call.clear, Call.keep, Call.return};
ghost use Rattle.drafts.specs.Values.{answered};
ghost use Rattle.joint.specs.Handed.{Hands};
ghost use Rattle.turns.specs.Handed.{places, Hands as HandsTurns};
ghost use Rattle.cheapest.specs.Handed.{places as places_of, Hands as HandsCheapest};
ghost use Rattle.optcheck_c.specs.Exported.{Exported};

use answer::Refusal;
use checker::Tables;
use drafts::Desk;
use order::Order;
use sites::Terminal;

// Checks the book and the order, fills the lent tables and returns the answer as one word (crate `answer`, `packed`).
#[unsafe(no_mangle)]
pub extern "C" fn optcheck_check(
    book: &[u8],
    wanted: u64,
    unwanted: u64,
    standard: u64,
    allowance: u32,
    pos: &mut [u64],
    neg: &mut [u64],
    decided: &mut [u64],
    trues: &mut [u64],
    redundant: &mut [u64],
) -> u64
    ensures { Exported book.now (record { wanted = wanted; unwanted = unwanted; standard = standard }) allowance (lent pos.old neg.old decided.old trues.old redundant.old) result (lent pos.new neg.new decided.new trues.new redundant.new) }
{
    let order = Order {
        wanted,
        unwanted,
        standard,
    };
    let mut tables = Tables {
        pos,
        neg,
        decided,
        trues,
        redundant,
    };
    let found = checker::check(book, order, allowance, &mut tables);
    answer::word_of(found)
}

// Checks the book and the order, writes the page at the start of `page` and returns its length (crate `filing`). A buffer that is shorter than the longest page is
// left as it is, and the length is 0.
#[unsafe(no_mangle)]
pub extern "C" fn optcheck_page(
    book: &[u8],
    wanted: u64,
    unwanted: u64,
    standard: u64,
    allowance: u32,
    page: &mut [u8],
) -> usize
    ensures { Filed book.now (record { wanted = wanted; unwanted = unwanted; standard = standard }) allowance page.old page.new result }
{
    let order = Order {
        wanted,
        unwanted,
        standard,
    };
    filing::file(book, order, allowance, page).unwrap_or(0)
}

// Serves a morning's orders (crate `serving`): 0, or 13 where nothing is changed.
#[unsafe(no_mangle)]
pub extern "C" fn optcheck_morning(
    book: &[u8],
    orders: &[u64],
    allowance: u32,
    answers: &mut [u64],
    pos: &mut [u64],
    neg: &mut [u64],
    decided: &mut [u64],
    trues: &mut [u64],
    redundant: &mut [u64],
) -> u32
    ensures { Serves book.now orders.now allowance answers.old (lent pos.old neg.old decided.old trues.old redundant.old) result answers.new (lent pos.new neg.new decided.new trues.new redundant.new) }
{
    let mut tables = Tables {
        pos,
        neg,
        decided,
        trues,
        redundant,
    };
    answer_of(serving::morning(book, orders, allowance, answers, &mut tables))
}

// Tries the settings of the options in `opens` (crate `telling`): the word of the last setting's answer, or that of a refusal, which changes nothing.
#[unsafe(no_mangle)]
pub extern "C" fn optcheck_undecided(
    book: &[u8],
    wanted: u64,
    unwanted: u64,
    standard: u64,
    opens: u64,
    allowance: u32,
    verdict: &mut u32,
    setting: &mut u64,
    pos: &mut [u64],
    neg: &mut [u64],
    decided: &mut [u64],
    trues: &mut [u64],
    redundant: &mut [u64],
) -> u64
    ensures { Told book.now (record { wanted = wanted; unwanted = unwanted; standard = standard }) opens allowance verdict.old setting.old (lent pos.old neg.old decided.old trues.old redundant.old) result verdict.new setting.new (lent pos.new neg.new decided.new trues.new redundant.new) }
{
    let order = Order {
        wanted,
        unwanted,
        standard,
    };
    let mut tables = Tables {
        pos,
        neg,
        decided,
        trues,
        redundant,
    };
    telling::undecided(book, order, opens, allowance, verdict, setting, &mut tables)
}

// Opens a terminal for so many sites and one allowance (crate `terminal`): 0, and it stands in `left`, `part` and `sites`; or 21, and nothing is changed.
#[unsafe(no_mangle)]
pub extern "C" fn optcheck_terminal(
    count: usize,
    allowance: u32,
    left: &mut u32,
    part: &mut u32,
    sites: &mut u32,
) -> u32
    ensures { HandsOpening count allowance (terminal_of left.old part.old sites.old) result (terminal_of left.new part.new sites.new) }
{
    match terminal::open_for(count, allowance) {
        Err(refusal) => u32::from(refusal),
        Ok(t) => {
            *left = t.left;
            *part = t.part;
            *sites = t.sites;
            0
        }
    }
}

// Serves the next site of a terminal (crate `terminal`), and returns the word of its answer. `left` and `sites` are then those for the next site.
#[unsafe(no_mangle)]
pub extern "C" fn optcheck_site(
    book: &[u8],
    wanted: u64,
    unwanted: u64,
    standard: u64,
    left: &mut u32,
    part: u32,
    sites: &mut u32,
    pos: &mut [u64],
    neg: &mut [u64],
    decided: &mut [u64],
    trues: &mut [u64],
    redundant: &mut [u64],
) -> u64
    ensures { HandsSite book.now (terminal_of left.old part sites.old) (record { wanted = wanted; unwanted = unwanted; standard = standard }) (lent pos.old neg.old decided.old trues.old redundant.old) result (terminal_of left.new part sites.new) (lent pos.new neg.new decided.new trues.new redundant.new) }
{
    let order = Order {
        wanted,
        unwanted,
        standard,
    };
    let before = Terminal {
        left: *left,
        part,
        sites: *sites,
    };
    let mut tables = Tables {
        pos,
        neg,
        decided,
        trues,
        redundant,
    };
    let served = terminal::serve(before, book, order, &mut tables);
    *left = served.terminal.left;
    *sites = served.terminal.sites;
    answer::word_of(served.answer)
}

// 0, or the number of the refusal.
fn answer_of(done: Result<(), Refusal>) -> u32
    ensures { result ≡ answered done }
{
    match done {
        Ok(()) => 0,
        Err(refusal) => u32::from(refusal),
    }
}

// Makes a fresh desk for so many options (crate `desk`): 0; or 2, and it is the fresh desk for none. All of `desk` is written.
#[unsafe(no_mangle)]
pub extern "C" fn optcheck_desk_fresh(options: u32, desk: &mut Desk) -> u32
    ensures { Makes options result desk.new }
{
    let (fresh, done) = desk::fresh(options);
    *desk = fresh;
    answer_of(done)
}

// Sets a wish for an option: it is to be fitted, or to be left out. 0, or 7, and nothing is changed.
#[unsafe(no_mangle)]
pub extern "C" fn optcheck_desk_set(desk: &mut Desk, option: u32, fitted: bool) -> u32
    ensures { Alters desk.old (set option fitted) result desk.new }
{
    answer_of(desk::set(desk, option, fitted))
}

// Clears the wish for an option: 0, or 7, and nothing is changed.
#[unsafe(no_mangle)]
pub extern "C" fn optcheck_desk_clear(desk: &mut Desk, option: u32) -> u32
    ensures { Alters desk.old (clear option) result desk.new }
{
    answer_of(desk::clear(desk, option))
}

// Keeps the order as a draft: 0, or 14, and nothing is changed.
#[unsafe(no_mangle)]
pub extern "C" fn optcheck_desk_keep(desk: &mut Desk, draft: u32) -> u32
    ensures { Alters desk.old (keep draft) result desk.new }
{
    answer_of(desk::keep(desk, draft))
}

// Returns to a draft: 0, or 14 or 15, and nothing is changed.
#[unsafe(no_mangle)]
pub extern "C" fn optcheck_desk_return(desk: &mut Desk, draft: u32) -> u32
    ensures { Alters desk.old (return draft) result desk.new }
{
    answer_of(desk::return_to(desk, draft))
}

// Joins two books (crate `joining`): 0, and the joint book's bytes stand at the beginning of `book` and their number in `length`; or the number of a refusal, and nothing
// is changed.
#[unsafe(no_mangle)]
pub extern "C" fn optcheck_join(
    first: &[u8],
    second: &[u8],
    pairs: &[u8],
    book: &mut [u8],
    length: &mut usize,
) -> u32
    ensures { Hands first.now second.now pairs.now book.old length.old result book.new length.new }
{
    match joining::join(first, second, pairs, book) {
        Ok(size) => {
            *length = size;
            0
        }
        Err(refusal) => u32::from(refusal),
    }
}

// Settles the free options in turn (crate `playing`): 0, and `forced` is 1 if the planner can force it and else 0, and `out` and `fitted` are his answers to "left out"
// and "fitted" (0 none, 1 left out, 2 fitted); or the number of a refusal, and nothing is changed.
#[unsafe(no_mangle)]
pub extern "C" fn optcheck_turns(
    book: &[u8],
    wanted: u64,
    unwanted: u64,
    standard: u64,
    forced: &mut u32,
    out: &mut u32,
    fitted: &mut u32,
) -> u32
    ensures { HandsTurns book.now (record { wanted = wanted; unwanted = unwanted; standard = standard }) (places forced.old out.old fitted.old) result (places forced.new out.new fitted.new) }
{
    let order = Order {
        wanted,
        unwanted,
        standard,
    };
    match playing::turns(book, order) {
        Ok(outcome) => {
            *forced = u32::from(outcome.forced);
            *out = outcome.responses.out.map_or(0, u32::from);
            *fitted = outcome.responses.fitted.map_or(0, u32::from);
            0
        }
        Err(refusal) => u32::from(refusal),
    }
}

// Finds the cheapest plant (crate `pricing`): 0, and `can` is 1 and the other places have its list total, the amount due on it and the choice, or all four are 0 where none can
// be built; or the number of a refusal, and nothing is changed.
#[unsafe(no_mangle)]
pub extern "C" fn optcheck_cheapest(
    book: &[u8],
    wanted: u64,
    unwanted: u64,
    standard: u64,
    prices: &[u64],
    rebate: u64,
    can: &mut u32,
    total: &mut u64,
    due: &mut u64,
    choice: &mut u64,
) -> u32
    ensures { HandsCheapest book.now (record { wanted = wanted; unwanted = unwanted; standard = standard }) (record { prices = prices.entry.now; rebate = rebate }) (places_of can.old total.old due.old choice.old) result (places_of can.new total.new due.new choice.new) }
{
    let order = Order {
        wanted,
        unwanted,
        standard,
    };
    match pricing::cheapest(book, order, prices, rebate) {
        Err(refusal) => u32::from(refusal),
        Ok(None) => {
            *can = 0;
            *total = 0;
            *due = 0;
            *choice = 0;
            0
        }
        Ok(Some(q)) => {
            *can = 1;
            *total = q.total;
            *due = q.due;
            *choice = q.choice;
            0
        }
    }
}
