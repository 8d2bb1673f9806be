// A terminal: 1 to 8 sites share one allowance, and are served one a call.
#![tactic(auto)]

ghost use Rattle.std.specs.Prelude.{◌≡◌, ◌-◌, ◌≤◌};
ghost use Rattle.order.specs.Values.{order_of};
ghost use Rattle.answer.specs.Numbers.{by_number};
ghost use Rattle.checker.specs.Lent.{tables_of, SameReferences};
ghost use Rattle.sites.specs.Sites.{used_in};
ghost use Rattle.sites.specs.Values.{opening_of, served_of};
ghost use Rattle.sites.specs.Terminal.{allowance_before, Opens, Serves};

use answer::{Answer, Refusal};
use checker::Tables;
use order::Order;
use sites::{Served, Terminal};

// The most sites.
const MAX_SITES: usize = 8;

// Opens a terminal for so many sites and one allowance. It is refused where they are not 1 to 8.
pub fn open_for(count: usize, allowance: u32) -> Result<Terminal, Refusal>
    ensures { Opens count allowance (opening_of result) }
{
    if count < 1 || MAX_SITES < count {
        return Err(Refusal::NumberOfSites);
    }
    let k = count as u32;
    Ok(Terminal {
        left: allowance,
        part: allowance / k,
        sites: k,
    })
}

// Serves the next site: checks its order with its part of the allowance and what the sites before it left unused. It is refused, and nothing is changed, where no
// site is to come. Any terminal will do: the site has what is left, less the parts of the sites after it, or nothing where these are more than is left.
pub fn serve(t: Terminal, book: &[u8], o: Order, tables: &mut Tables<'_>) -> Served
    ensures same_references { SameReferences tables.old tables.new }
    ensures serves { Serves book.now t (order_of o) (tables_of tables.old) (served_of result) (tables_of tables.new) }
{
    match t.sites.checked_sub(1) {
        None => Served {
            answer: Answer::Refused(Refusal::NumberOfSites),
            terminal: t,
        },
        Some(later) => {
            let found = checker::check(book, o, allowance(t, later), tables);
            after(t, later, found)
        }
    }
}

// The allowance of a site after which so many come.
fn allowance(t: Terminal, later: u32) -> u32
    ensures { result ≡ allowance_before t later }
{
    let parts = t.part as u64 * later as u64;
    (t.left as u64).saturating_sub(parts) as u32
}

// The answer to a site, and the terminal after it, where so many are to come.
fn after(t: Terminal, later: u32, a: Answer) -> Served
    requires { used_in (by_number a) ≤ t.left }
    ensures { result ≡ record { answer = a; terminal = record { left = t.left - used_in (by_number a); part = t.part; sites = later } } }
{
    Served {
        answer: a,
        terminal: Terminal {
            left: t.left - answer::tally_of(a).branchings,
            part: t.part,
            sites: later,
        },
    }
}
