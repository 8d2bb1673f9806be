// The counts of one clause, in one word: 2 for each decision that satisfies it and 256 for each undecided literal. What a clause is at the decisions is one comparison
// of this word. Whether it names a redundant variable is not in the word: the index has it.
ghost use Rattle.std.specs.Prelude.{◌≡◌, ◌^◌, ◌<◌};
ghost use Rattle.words.specs.Words.{has};
ghost use Rattle.steps.specs.Clause.{Clause as Rule, Assignment as Decisions, falsified};
ghost use Rattle.rows.specs.Values.{clause_of, assignment_of};
ghost use Rattle.rows.specs.Index.{masked};
ghost use Rattle.rows.specs.Tally.{counts_of, Counted, is_unsatisfied, is_single, Changeable, changed, deciding_of, withdrawing_of, turning_of};

use super::clause;
use super::clause::{Assignment, Clause};

// What a change of decisions on a variable does to the word of a clause that names it: `up` is added and `down` taken away, and the digit that says whether it has the
// literal of the sign is added, shifted.
#[derive(Clone, Copy)]
pub struct Delta {
    pub up: u64,
    pub down: u64,
    pub sign: bool,
    pub shift: u32,
}

// A clause that is added: both are counted.
pub fn counts_of(a: Assignment, c: Clause) -> u64
    ensures { result ≡ counts_of (assignment_of a) (clause_of c) }
{
    2 * u64::from(words::count_of(clause::keepers(a, c)))
        + 256 * u64::from(clause::undecided_in(a, c))
}

// A variable is decided, with the value b: its literal is not undecided any more, and where it is the one of b a decision more satisfies the clause.
pub fn deciding(b: bool) -> Delta
    ensures { result ≡ deciding_of b }
{
    Delta {
        up: 0,
        down: 256,
        sign: b,
        shift: 1,
    }
}

// The decision, with the value b, is withdrawn. A clause that names the variable has the literal of b or the other one.
pub fn withdrawing(b: bool) -> Delta
    ensures { result ≡ withdrawing_of b }
{
    Delta {
        up: 254,
        down: 0,
        sign: !b,
        shift: 1,
    }
}

// It is withdrawn, and the other one made.
pub fn turning(b: bool) -> Delta
    ensures { result ≡ turning_of b }
{
    Delta {
        up: 0,
        down: 2,
        sign: !b,
        shift: 2,
    }
}

// The word x of a clause that names the variable of number v, after the change. `lits` are its literals of the sign.
pub fn change(x: u64, lits: u64, v: u32, d: Delta) -> u64
    requires { (v < 64) × Changeable d (has lits v) x }
    ensures { result ≡ changed d (has lits v) x }
{
    x + d.up + (words::bit_of(lits, v) << d.shift) - d.down
}

// Broken.
pub fn is_falsified(x: u64) -> bool
    ensures { (a : Decisions) (c : Rule) → Counted a c x → result ≡ falsified a c }
{
    x == 0
}

// No decision satisfies it, of a clause that fewer than 128 decisions satisfy.
pub fn is_unsatisfied(x: u64) -> bool
    ensures { result ≡ is_unsatisfied x }
{
    x % 256 == 0
}

// Exactly one literal is undecided, of a clause that fewer than 128 decisions satisfy, and none does.
pub fn is_single(x: u64) -> bool
    ensures { result ≡ is_single x }
{
    x == 256
}

// The bit of the place b, or none.
pub fn mark(on: bool, b: u32) -> u64
    requires { b < 64 }
    ensures { result ≡ masked on (2 ^ b) }
{
    u64::from(on) << b
}
