// A desk with drafts to come back to: a fresh one, and four calls on one that is lent. Each gives what the desk holds to a function on values, and stores of what that gave
// the words that it may alter, and no byte beside them. The calls are thin and lent a desk, as the scope names the form.
#![tactic(auto)]

ghost use Rattle.std.specs.Prelude.{◌≡◌};
ghost use Rattle.drafts.specs.Desk.{empty_desk, Makes, Alters, Call.set, Call.clear, Call.keep, Call.return};
ghost use Rattle.drafts.specs.Values.{answered};

use answer::Refusal;
use book::Book;
use drafts::Desk;

mod calls;

// A fresh desk for so many options: an empty order, and no draft kept. It is refused for more than 64, and the desk is the fresh one for none.
// A pair, since on a refusal too there is a desk.
#[tactic(auto, using(crate::proofs::Laws::too_many, crate::proofs::Laws::not_too_many))]
pub fn fresh(options: u32) -> (Desk, Result<(), Refusal>)
    ensures { Makes options (answered result.1) result.0 }
{
    if Book::MAX_VARS < options {
        return (empty(0), Err(Refusal::TooManyOptions));
    }
    (empty(options), Ok(()))
}

// A desk with an empty order and no draft.
fn empty(options: u32) -> Desk
    ensures { result ≡ empty_desk options }
{
    Desk {
        options,
        wanted: 0,
        unwanted: 0,
        kept: 0,
        wanteds: [0; calls::DRAFTS],
        unwanteds: [0; calls::DRAFTS],
    }
}

// Sets a wish for an option: it is to be fitted, or to be left out.
pub fn set(desk: &mut Desk, option: u32, fitted: bool) -> Result<(), Refusal>
    ensures { Alters desk.old (set option fitted) (answered result) desk.new }
{
    let next = calls::with_wish(*desk, option, fitted)?;
    desk.wanted = next.wanted;
    desk.unwanted = next.unwanted;
    Ok(())
}

// Clears the wish for an option.
pub fn clear(desk: &mut Desk, option: u32) -> Result<(), Refusal>
    ensures { Alters desk.old (clear option) (answered result) desk.new }
{
    let next = calls::without_wish(*desk, option)?;
    desk.wanted = next.wanted;
    desk.unwanted = next.unwanted;
    Ok(())
}

// Keeps the order as a draft.
pub fn keep(desk: &mut Desk, draft: u32) -> Result<(), Refusal>
    ensures { Alters desk.old (keep draft) (answered result) desk.new }
{
    let next = calls::with_draft(*desk, draft)?;
    let wanteds = next.wanteds;
    let unwanteds = next.unwanteds;
    desk.kept = next.kept;
    desk.wanteds = wanteds;
    desk.unwanteds = unwanteds;
    Ok(())
}

// Returns to a draft: the order is as it was when the draft was last kept.
pub fn return_to(desk: &mut Desk, draft: u32) -> Result<(), Refusal>
    ensures { Alters desk.old (return draft) (answered result) desk.new }
{
    let next = calls::at_draft(*desk, draft)?;
    desk.wanted = next.wanted;
    desk.unwanted = next.unwanted;
    Ok(())
}
