// Options that a buyer has not decided: what is answered. Crate `trying` has the code.
#![tactic(auto)]

ghost use Rattle.std.specs.Prelude.{◌≡◌};
ghost use Rattle.undecided.specs.Told.{verdict_number};

use answer::Answer;

// The order can be built with every setting of the open options, with some but not all, or with none; or a setting stopped, and there is no verdict.
#[derive(Clone, Copy)]
pub enum Verdict {
    Always,
    Sometimes,
    Never,
    Stopped,
}

impl From<Verdict> for u32 {
    ghost from_gives = { λ verdict number. number ≡ verdict_number verdict };

    fn from(verdict: Verdict) -> u32 {
        match verdict {
            Verdict::Always => 0,
            Verdict::Sometimes => 1,
            Verdict::Never => 2,
            Verdict::Stopped => 3,
        }
    }
}

// The verdict or that there is none, the last setting tried, and the answer to it.
#[derive(Clone, Copy)]
pub struct Tried {
    pub verdict: Verdict,
    pub setting: u64,
    pub last: Answer,
}
