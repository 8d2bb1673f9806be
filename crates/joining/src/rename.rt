// Clauses with their options in other places.
ghost use Rattle.std.specs.Prelude.{◌≡◌, ◌++◌, map, ℕ, ◌+◌, ◌<◌, get_or};
ghost use Rattle.rows.specs.Rows.{clauses as Clauses};
ghost use Rattle.rows.specs.Values.{clause_of};
ghost use Rattle.renaming.specs.Renaming.{image, renamed as Renamed};
ghost use Rattle.joining.specs.Promises.{place_in, Appendable};

use rows::clause::Clause;
use rows::table;

// The place of each option, the number of a bit.
#[derive(Clone, Copy)]
pub struct Places {
    pub of: [u32; 64],
    ghost bits: { (k : ℕ) → get_or of k 0 < 64 },
}

impl Places {
    // The word with each member in its place.
    fn word(&self, word: u64) -> u64
        ensures { result ≡ image (place_in self.now.of) 64 word }
    {
        let mut out: u64 = 0;
        for k in words::members(word) {
            out |= words::word_of(self.of[k as usize]);
        }
        out
    }

    // The clause with each option in its place.
    #[tactic(auto, unfolding(renaming::specs::Renaming::renamed))]
    fn clause(&self, c: Clause) -> Clause
        ensures { clause_of result ≡ Renamed (place_in self.now.of) 64 (clause_of c) }
    {
        Clause {
            pos: self.word(c.pos),
            neg: self.word(c.neg),
        }
    }
}

// Puts the first `count` clauses of `u`, with their options in their places, into `t` after its first `clauses`.
pub fn append(clauses: usize, count: usize, places: &Places, u: &[u64], t: &mut [u64])
    requires { Appendable clauses count u.now t.old }
    ensures { Clauses t.new (clauses + count) ≡ Clauses t.old clauses ++ map (Renamed (place_in places.now.of) 64) (Clauses u.now count) }
{
    for i in 0..count {
        let c = places.clause(table::clause_at(u, i));
        table::put(t, clauses + i, c);
    }
}
