// A turn of buyer or planner.
ghost use Rattle.std.specs.Prelude.{true, false, ◌<◌};
ghost use Rattle.playing.specs.Promises.{Settles};

// Which options are left to settle, the lowest first, and what is fitted of the others.
#[derive(Clone, Copy)]
pub struct Turn {
    pub left: u64,
    pub fitted: u64,
}

impl Turn {
    // The turn after this one where the next option is left out,
    pub fn leave_out(self) -> Turn
        requires { 0 < self.left }
        ensures { Settles false self result }
    {
        Turn {
            left: words::rest_of(self.left),
            fitted: self.fitted,
        }
    }

    // and where it is fitted.
    pub fn fit(self) -> Turn
        requires { 0 < self.left }
        ensures { Settles true self result }
    {
        Turn {
            left: words::rest_of(self.left),
            fitted: self.fitted | words::lowest_of(self.left),
        }
    }
}
