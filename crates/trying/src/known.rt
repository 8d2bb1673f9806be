// What is known of the settings that were tried.
ghost use Rattle.std.specs.Prelude.{◌≡◌, ◌&&◌, ◌||◌};
ghost use Rattle.answer.specs.Numbers.{by_number};
ghost use Rattle.undecided.specs.Undecided.{is_can, is_stop, verdict_by};

use answer::Answer;
use undecided::Verdict;

// Whether all of them can be built, and whether some can.
#[derive(Clone, Copy)]
pub struct Known {
    pub all: bool,
    pub any: bool,
}

impl Known {
    // With the answer to one more.
    pub fn with(self, a: Answer) -> Known
        ensures all { result.all ≡ (self.all && is_can (by_number a)) }
        ensures any { result.any ≡ (self.any || is_can (by_number a)) }
    {
        match a {
            Answer::Can(_) => Known { any: true, ..self },
            _ => Known { all: false, ..self },
        }
    }

    // The verdict, or that the last one stopped.
    pub fn verdict(self, stops: bool) -> Verdict
        ensures { result ≡ verdict_by stops self.all self.any }
    {
        match (stops, self.all, self.any) {
            (true, _, _) => Verdict::Stopped,
            (_, true, _) => Verdict::Always,
            (_, _, true) => Verdict::Sometimes,
            _ => Verdict::Never,
        }
    }
}

// Whether it is a stop.
pub fn is_stop(a: Answer) -> bool
    ensures { result ≡ is_stop (by_number a) }
{
    matches!(a, Answer::Stopped(_, _))
}
