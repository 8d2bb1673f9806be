// The calls on values: the desk after each, or why it is refused.
ghost use Rattle.std.specs.Prelude.{◌≡◌, ◌≢◌, ◌-◌, ◌^◌, ◌<◌, IfOk, IfErr};
ghost use Rattle.answer.specs.Numbers.{refusal_number};
ghost use Rattle.drafts.specs.Desk.{option_refusal, number_refusal, done, Call.set, Call.clear, Call.keep, Call.return};
ghost use Rattle.drafts.specs.Values.{done_by};

use answer::Refusal;
use book::Book;
use drafts::Desk;

// How many drafts a desk has.
pub const DRAFTS: usize = 16;

// The bit of an option that the desk has: it has at most 64, whatever it says.
fn option_bit(d: Desk, option: u32) -> Result<u64, Refusal>
    ensures bit { IfOk result (λ w. (option_refusal d option ≡ 0) × (w ≡ 2 ^ (option - 1))) }
    ensures refused { IfErr result (λ r. (refusal_number r ≡ option_refusal d option) × (option_refusal d option ≢ 0)) }
{
    if !(1..=d.options.min(Book::MAX_VARS)).contains(&option) {
        return Err(Refusal::OptionAbove);
    }
    Ok(words::word_of(option - 1))
}

// The place of a draft.
fn draft_place(draft: u32) -> Result<usize, Refusal>
    ensures place { IfOk result (λ i. (number_refusal draft ≡ 0) × (i ≡ draft - 1) × (i < 16)) }
    ensures refused { IfErr result (λ r. (refusal_number r ≡ number_refusal draft) × (number_refusal draft ≢ 0)) }
{
    if !(1..=DRAFTS as u32).contains(&draft) {
        return Err(Refusal::NoSuchDraft);
    }
    Ok((draft - 1) as usize)
}

// Sets a wish: the option's bit goes into the one word, and out of the other.
pub fn with_wish(d: Desk, option: u32, fitted: bool) -> Result<Desk, Refusal>
    ensures { done_by d result ≡ done d (set option fitted) }
{
    let bit = option_bit(d, option)?;
    if fitted {
        return Ok(Desk {
            wanted: d.wanted | bit,
            unwanted: words::minus(d.unwanted, bit),
            ..d
        });
    }
    Ok(Desk {
        wanted: words::minus(d.wanted, bit),
        unwanted: d.unwanted | bit,
        ..d
    })
}

// Clears a wish: the option's bit goes out of both words.
pub fn without_wish(d: Desk, option: u32) -> Result<Desk, Refusal>
    ensures { done_by d result ≡ done d (clear option) }
{
    let bit = option_bit(d, option)?;
    Ok(Desk {
        wanted: words::minus(d.wanted, bit),
        unwanted: words::minus(d.unwanted, bit),
        ..d
    })
}

// Keeps the order as a draft.
pub fn with_draft(d: Desk, draft: u32) -> Result<Desk, Refusal>
    ensures { done_by d result ≡ done d (keep draft) }
{
    let at = draft_place(draft)?;
    let mut wanteds = d.wanteds;
    let mut unwanteds = d.unwanteds;
    wanteds[at] = d.wanted;
    unwanteds[at] = d.unwanted;
    Ok(Desk {
        kept: d.kept | words::word_of(draft - 1),
        wanteds,
        unwanteds,
        ..d
    })
}

// Returns to a draft. Its number is judged first.
pub fn at_draft(d: Desk, draft: u32) -> Result<Desk, Refusal>
    ensures { done_by d result ≡ done d (return draft) }
{
    let at = draft_place(draft)?;
    if words::bit_of(d.kept, draft - 1) == 0 {
        return Err(Refusal::NeverKept);
    }
    Ok(Desk {
        wanted: d.wanteds[at],
        unwanted: d.unwanteds[at],
        ..d
    })
}
