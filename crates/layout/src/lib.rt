// The page written into a lent buffer: of an answer and derived rules, and of a check. Each function writes at the start of `out`, whose later bytes stay as they are, and gives
// the length of the page.
#![tactic(auto)]

ghost use Rattle.std.specs.Prelude.{◌≡◌, ◌≤◌, length};
ghost use Rattle.order.specs.Values.{order_of};
ghost use Rattle.contract.specs.Check.{check};
ghost use Rattle.contract.specs.Filled.{lengths};
ghost use Rattle.checker.specs.Lent.{tables_of};
ghost use Rattle.report.specs.Text.{Printed};
ghost use Rattle.reply.specs.Reply.{places};
ghost use Rattle.page.specs.Page.{page_of, longest};
ghost use Rattle.layout.specs.Layout.{Fit, numbered, page_in};

use crate::lines::put_lines;
use book::Book;
use checker::Tables;
use order::Order;
use report::Writer;

mod lines;
mod numbered;
mod rule;

pub use numbered::Numbered;

// The page of an answer and of the derived rules in the first places of two tables, as many as are counted. It is public for crate `filing`, as is the next.
pub fn put_page(a: Numbered, pos: &[u64], neg: &[u64], out: &mut [u8]) -> usize
    requires fit { Fit (numbered a) pos.now neg.now }
    requires longest_in_bounds { longest ≤ length out.old }
    ensures { Printed (page_in (numbered a) pos.now neg.now) out.old out.new result }
{
    let derived = a.tally().derived;
    let mut writer = Writer { out, at: 0 };
    put_lines(a, &pos[..derived], &neg[..derived], &mut writer);
    writer.at
}

// The page of a check of the book and the order with so many branchings.
pub fn put_check(book: &[u8], o: Order, allowance: u32, out: &mut [u8]) -> usize
    requires { longest ≤ length out.old }
    ensures { Printed (page_of (check book.now (order_of o) allowance places)) out.old out.new result }
{
    let mut pos = [0u64; Book::MAX_DERIVED];
    let mut neg = [0u64; Book::MAX_DERIVED];
    let mut decided = [0u64; Book::MIN_RECORDS];
    let mut trues = [0u64; Book::MIN_RECORDS];
    let mut redundant = [0u64; Book::MIN_RECORDS];
    let tables = Tables {
        pos: &mut pos,
        neg: &mut neg,
        decided: &mut decided,
        trues: &mut trues,
        redundant: &mut redundant,
    };
    check_by(book, o, allowance, tables, out)
}

// The same, by tables as long as the program's.
fn check_by(book: &[u8], o: Order, allowance: u32, mut tables: Tables<'_>, out: &mut [u8]) -> usize
    requires places { lengths (tables_of tables) ≡ places }
    requires longest_in_bounds { longest ≤ length out.old }
    ensures { Printed (page_of (check book.now (order_of o) allowance places)) out.old out.new result }
{
    let found = checker::check(book, o, allowance, &mut tables);
    let Tables { pos, neg, .. } = tables;
    put_page(Numbered::from(found), pos, neg, out)
}
