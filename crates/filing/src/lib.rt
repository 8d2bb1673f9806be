// A page for the file: the outcome of a check as lines of 40 characters, at the start of a lent buffer.
#![tactic(auto)]

ghost use Rattle.std.specs.Prelude.{◌≡◌, ◌≤◌, ◌<◌, ◌↔◌, length, IsNone};
ghost use Rattle.std.specs.Option.{unwrap_or};
ghost use Rattle.order.specs.Values.{order_of};
ghost use Rattle.report.specs.Text.{Printed};
ghost use Rattle.page.specs.Page.{page_to, longest};
ghost use Rattle.page.specs.Filed.{Filed};

use answer::{Answer, Refusal};
use book::Book;
use layout::Numbered;
use order::Order;

// A line has 40 characters and a line feed.
const LINE: usize = 41;

// No page is longer: the first line, and one for each derived rule.
pub const LONGEST: usize = LINE * (1 + Book::MAX_DERIVED);

// Room for every page: zeros.
pub fn page_buffer() -> [u8; LONGEST]
    ensures { longest ≡ length result }
{
    [0; LONGEST]
}

// Checks the book and the order with so many branchings, writes the page at the start of `out`, whose later bytes stay as they are, and gives its length. A buffer
// that is shorter than the longest page stays as it is, and there is no length.
pub fn file(book: &[u8], o: Order, allowance: u32, out: &mut [u8]) -> Option<usize>
    ensures filed { Filed book.now (order_of o) allowance out.old out.new (unwrap_or result 0) }
    ensures none { IsNone result ↔ (length out.old < longest) }
{
    if out.len() < LONGEST {
        return None;
    }
    Some(layout::put_check(book, o, allowance, out))
}

// Writes the page of an input of the program at the start of `out`, whose later bytes stay as they are, and gives its length. It is public for the
// program, whose buffer is as long as it asks.
pub fn respond(input: &[u8], out: &mut [u8]) -> usize
    requires { longest ≤ length out.old }
    ensures { Printed (page_to input.now) out.old out.new result }
{
    if input.len() < reply::ORDER_BYTES {
        return layout::put_page(
            Numbered::from(Answer::Refused(Refusal::TooShort)),
            &[],
            &[],
            out,
        );
    }
    layout::put_check(
        &input[reply::ORDER_BYTES..],
        reply::order_in(input),
        reply::ALLOWANCE,
        out,
    )
}
