// Options that a buyer has not decided: every setting of them is tried, each as a check of its own on tables of zeros, until one stops.
#![tactic(auto)]

ghost use Rattle.order.specs.Values.{order_of};
ghost use Rattle.checker.specs.Lent.{tables_of, SameReferences};
ghost use Rattle.undecided.specs.Undecided.{Replies};
ghost use Rattle.undecided.specs.Values.{tried_of, reply_of};
ghost use Rattle.trying.specs.Promises.{Ready, TriesAll};

use answer::Refusal;
use checker::Tables;
use known::Known;
use order::Order;
use settings::clear;
use undecided::Tried;

mod judge;
mod known;

// Tries every setting of the options in `opens`, lowest word first: the order, with the open options of the setting wanted and the other open ones
// unwanted. A refusal changes nothing. Otherwise the tables are cleared before each setting, and keep what the last one wrote, with zeros after it.
pub fn undecided(
    book: &[u8],
    o: Order,
    opens: u64,
    allowance: u32,
    tables: &mut Tables<'_>,
) -> Result<Tried, Refusal>
    ensures same_references { SameReferences tables.old tables.new }
    ensures replies { Replies book.now (order_of o) opens allowance (tables_of tables.old) (reply_of result) (tables_of tables.new) }
{
    judge::admit(book, o, opens, tables.lengths())?;
    clear::all(tables);
    Ok(try_all(book, o, opens, allowance, tables))
}

// Tries the settings one after the other, on tables of zeros. The tables are cleared of what a setting wrote before the next one.
fn try_all(book: &[u8], o: Order, opens: u64, allowance: u32, tables: &mut Tables<'_>) -> Tried
    requires { Ready (tables_of tables.old) }
    ensures same_references { SameReferences tables.old tables.new }
    ensures tries_all { TriesAll book.now (order_of o) opens allowance (tables_of tables.old) (tried_of result) (tables_of tables.new) }
{
    let mut known = Known {
        all: true,
        any: false,
    };
    let mut setting = 0;
    loop {
        let last = checker::check(book, settings::wishes(o, opens, setting), allowance, tables);
        known = known.with(last);
        let stops = known::is_stop(last);
        if stops || setting == opens {
            return Tried {
                verdict: known.verdict(stops),
                setting,
                last,
            };
        }
        clear::counted(answer::tally_of(last), tables);
        setting = settings::after(opens, setting);
    }
}
