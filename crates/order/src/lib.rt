// An order as a caller gives it, and the order that it is completed to.
#![tactic(auto)]

ghost use Rattle.std.specs.Prelude.{◌≡◌, ◌≤◌};
ghost use Rattle.order.specs.Order.{complete as Complete, free as Free};
ghost use Rattle.order.specs.Values.{assumptions_of, order_of};

// An order: the wanted options, the unwanted ones, and the standard ones, which come unless they are unwanted.
#[derive(Clone, Copy)]
pub struct Order {
    pub wanted: u64,
    pub unwanted: u64,
    pub standard: u64,
}

// A completed order: what it wants, and what it does not want.
#[derive(Clone, Copy)]
pub struct Assumptions {
    pub pos: u64,
    pub neg: u64,
}

impl Order {
    // The order with each standard option that is not unwanted taken as wanted.
    #[tactic(auto, unfolding(crate::specs::Order::complete))]
    pub fn complete(self) -> Assumptions
        ensures { assumptions_of result ≡ Complete (order_of self) }
    {
        Assumptions {
            pos: self.wanted | words::minus(self.standard, self.unwanted),
            neg: self.unwanted,
        }
    }

    // The free options among the first `vars`. Public for the crates that settle them, whose books have no more than 64 options.
    #[tactic(auto, unfolding(crate::specs::Order::free))]
    pub fn free(self, vars: u32) -> u64
        requires { vars ≤ 64 }
        ensures { result ≡ Free vars (order_of self) }
    {
        let order = self.complete();
        words::minus(words::first_of(vars), order.pos | order.neg)
    }
}
