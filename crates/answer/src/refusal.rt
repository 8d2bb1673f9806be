// Why a check is refused or stops. docs/FORMAT.md has the conditions and their numbers.
ghost use Rattle.std.specs.Prelude.{◌≡◌};
ghost use Rattle.answer.specs.Numbers.{refusal_number, stop_number};

// What is wrong with a book, with an order to it, or with what comes along with them.
#[derive(Clone, Copy)]
pub enum Refusal {
    TooShort,
    TooManyOptions,
    TooManyRules,
    WrongLength,
    RuleAbove,
    RuleHasBoth,
    OptionAbove,
    OrderHasBoth,
    UnfitTables,
    StandardAbove,
    NumberOfOrders,
    NoSuchDraft,
    NeverKept,
    TooManyInTurn,
    TooManyToPrice,
    PriceOutside,
    OpenOutside,
    OpenSettled,
    NumberOfSites,
    FaultyPairs,
    JointTooLarge,
}

// The allowance is spent, or no place is left for a derived rule.
#[derive(Clone, Copy)]
pub enum Stop {
    Branchings,
    Places,
}

impl From<Refusal> for u32 {
    ghost from_gives = { λ refusal number. number ≡ refusal_number refusal };

    fn from(refusal: Refusal) -> u32 {
        match refusal {
            Refusal::TooShort => 1,
            Refusal::TooManyOptions => 2,
            Refusal::TooManyRules => 3,
            Refusal::WrongLength => 4,
            Refusal::RuleAbove => 5,
            Refusal::RuleHasBoth => 6,
            Refusal::OptionAbove => 7,
            Refusal::OrderHasBoth => 8,
            Refusal::UnfitTables => 9,
            Refusal::StandardAbove => 12,
            Refusal::NumberOfOrders => 13,
            Refusal::NoSuchDraft => 14,
            Refusal::NeverKept => 15,
            Refusal::TooManyInTurn => 16,
            Refusal::TooManyToPrice => 17,
            Refusal::PriceOutside => 18,
            Refusal::OpenOutside => 19,
            Refusal::OpenSettled => 20,
            Refusal::NumberOfSites => 21,
            Refusal::FaultyPairs => 22,
            Refusal::JointTooLarge => 23,
        }
    }
}

impl From<Stop> for u32 {
    ghost from_gives = { λ stop number. number ≡ stop_number stop };

    fn from(stop: Stop) -> u32 {
        match stop {
            Stop::Branchings => 10,
            Stop::Places => 11,
        }
    }
}
