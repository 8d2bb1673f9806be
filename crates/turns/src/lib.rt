// The buyer and the planner settle the free options in turn: what is answered. Crate `playing` has the code.
#![tactic(auto)]

ghost use Rattle.std.specs.Prelude.{◌≡◌, Some};
ghost use Rattle.turns.specs.Handed.{response_number};
ghost use Rattle.turns.specs.Values.{response_of};

// What the planner answers to a choice of the buyer's: he leaves the next option out, or he fits it.
#[derive(Clone, Copy)]
pub enum Response {
    Out,
    Fitted,
}

// The number of an answer, for the exported function; 0 is for none.
impl From<Response> for u32 {
    ghost from_gives = { λ response number. number ≡ response_number (response_of (Some response)) };

    fn from(response: Response) -> u32 {
        match response {
            Response::Out => 1,
            Response::Fitted => 2,
        }
    }
}

// The planner's answers where the buyer leaves the first option out, and where he fits it; nothing where he has no answer.
#[derive(Clone, Copy)]
pub struct Responses {
    pub out: Option<Response>,
    pub fitted: Option<Response>,
}

// Whether the planner can force a plant that keeps every rule and wish, whatever the buyer says, and his answers.
#[derive(Clone, Copy)]
pub struct Outcome {
    pub forced: bool,
    pub responses: Responses,
}
