// An answer by its numbers, as the page tells it.
ghost use Rattle.std.specs.Prelude.{◌≡◌};
ghost use Rattle.answer.specs.Answer.{tally_in, number_in};
ghost use Rattle.answer.specs.Numbers.{by_number};
ghost use Rattle.report.specs.Text.{word_text};
ghost use Rattle.layout.specs.Layout.{numbered};

use answer::{Answer, Tally};

// A verdict, a refusal or a stop. Any number may stand for a refusal or a stop: a page is that of the number.
#[derive(Clone, Copy)]
pub enum Numbered {
    Can(Tally),
    Cannot(Tally),
    Refused(u32),
    Stopped(u32, Tally),
}

impl From<Answer> for Numbered {
    ghost from_gives = { λ a n. numbered n ≡ by_number a };

    fn from(a: Answer) -> Numbered {
        match a {
            Answer::Can(tally) => Numbered::Can(tally),
            Answer::Cannot(tally) => Numbered::Cannot(tally),
            Answer::Refused(refusal) => Numbered::Refused(u32::from(refusal)),
            Answer::Stopped(stop, tally) => Numbered::Stopped(u32::from(stop), tally),
        }
    }
}

impl Numbered {
    // The word for it.
    pub fn word(self) -> &'static [u8]
        ensures { result.now ≡ word_text (numbered self) }
    {
        match self {
            Numbered::Can(_) => b"can",
            Numbered::Cannot(_) => b"cannot",
            Numbered::Refused(_) => b"refused",
            Numbered::Stopped(_, _) => b"stopped",
        }
    }

    // The number of a refusal or a stop; 0 for a verdict.
    pub fn number(self) -> u32
        ensures { result ≡ number_in (numbered self) }
    {
        match self {
            Numbered::Can(_) | Numbered::Cannot(_) => 0,
            Numbered::Refused(number) | Numbered::Stopped(number, _) => number,
        }
    }

    // The counts; zeros for a refusal.
    pub fn tally(self) -> Tally
        ensures { result ≡ tally_in (numbered self) }
    {
        match self {
            Numbered::Can(tally) | Numbered::Cannot(tally) | Numbered::Stopped(_, tally) => tally,
            Numbered::Refused(_) => Tally::default(),
        }
    }
}
