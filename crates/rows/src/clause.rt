// What a clause is under a partial assignment: each function is its definition in `steps`.
ghost use Rattle.std.specs.Prelude.{◌≡◌};
ghost use Rattle.steps.specs.Clause.{literals as Literals, vars as Vars, keepers as Keepers, names as Names, undecided_in, decide as Decide};
ghost use Rattle.steps.specs.Merge.{covers as Covers, resolvent as Resolvent};
ghost use Rattle.rows.specs.Values.{clause_of, assignment_of};

// A rule.
#[derive(Clone, Copy)]
pub struct Clause {
    pub pos: u64,
    pub neg: u64,
}

// The decisions.
#[derive(Clone, Copy)]
pub struct Assignment {
    pub decided: u64,
    pub trues: u64,
}

// The literals of one sign: the positive ones for true.
pub fn literals(sign: bool, c: Clause) -> u64
    ensures { result ≡ Literals sign (clause_of c) }
{
    if sign { c.pos } else { c.neg }
}

// The variables that a clause names.
#[tactic(auto, unfolding(steps::specs::Clause::vars))]
pub fn vars(c: Clause) -> u64
    ensures { result ≡ Vars (clause_of c) }
{
    c.pos | c.neg
}

// The decided variables that make a literal true.
#[tactic(auto, unfolding(steps::specs::Clause::keepers))]
pub fn keepers(a: Assignment, c: Clause) -> u64
    ensures { result ≡ Keepers (assignment_of a) (clause_of c) }
{
    (c.pos & a.trues) | (c.neg & words::minus(a.decided, a.trues))
}

// d covers c: every literal of d is one of c.
pub fn covers(d: Clause, c: Clause) -> bool
    ensures { result ≡ Covers (clause_of d) (clause_of c) }
{
    (words::minus(d.pos, c.pos) | words::minus(d.neg, c.neg)) == 0
}

// The clause names a variable of k.
#[tactic(auto, unfolding(steps::specs::Clause::names))]
pub fn names(k: u64, c: Clause) -> bool
    ensures { result ≡ Names k (clause_of c) }
{
    words::meets(vars(c), k)
}

// How many literals are undecided: a count of ones of both masked words.
#[tactic(auto, unfolding(steps::specs::Clause::undecided_in))]
pub fn undecided_in(a: Assignment, c: Clause) -> u32
    ensures { result ≡ undecided_in (assignment_of a) (clause_of c) }
{
    words::count_of(words::minus(c.pos, a.decided))
        + words::count_of(words::minus(c.neg, a.decided))
}

// The two clauses joined, without v's literals.
#[tactic(auto, unfolding(steps::specs::Merge::resolvent))]
pub fn resolvent(v: u64, c: Clause, d: Clause) -> Clause
    ensures { clause_of result ≡ Resolvent v (clause_of c) (clause_of d) }
{
    Clause {
        pos: words::minus(c.pos | d.pos, v),
        neg: words::minus(c.neg | d.neg, v),
    }
}

// a with the variable v decided.
pub fn decide(a: Assignment, v: u64, value: bool) -> Assignment
    ensures { assignment_of result ≡ Decide (assignment_of a) v value }
{
    Assignment {
        decided: a.decided | v,
        trues: if value { a.trues | v } else { a.trues },
    }
}
