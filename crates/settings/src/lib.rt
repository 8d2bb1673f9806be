// A setting of open options: the next one, the order with it, and the tables cleared before it.
#![tactic(auto)]

ghost use Rattle.std.specs.Prelude.{◌≡◌, ◌<◌};
ghost use Rattle.order.specs.Values.{order_of};
ghost use Rattle.undecided.specs.Settings.{next_setting};
ghost use Rattle.undecided.specs.Undecided.{with_setting};

use order::Order;

pub mod clear;

// The setting after s: s less `opens` in 64 bits, and of that what `opens` has.
#[tactic(auto, unfolding(undecided::specs::Settings::next_setting))]
pub fn after(opens: u64, s: u64) -> u64
    requires { s < opens }
    ensures { result ≡ next_setting opens s }
{
    (s + (u64::MAX - opens) + 1) & opens
}

// The order with a setting: its options are wanted and the other open ones unwanted, and none of them is standard.
#[tactic(auto, unfolding(undecided::specs::Undecided::with_setting))]
pub fn wishes(o: Order, opens: u64, s: u64) -> Order
    ensures { order_of result ≡ with_setting (order_of o) opens s }
{
    Order {
        wanted: o.wanted | s,
        unwanted: o.unwanted | words::minus(opens, s),
        standard: words::minus(o.standard, opens),
    }
}
