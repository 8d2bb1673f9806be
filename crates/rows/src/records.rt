// The list of D-sequents: k of them, each three words, the decided variables, those of them true, and the redundant ones. It is a slice of words, as the clause table is.
ghost use Rattle.std.specs.Prelude.{◌≡◌, ◌+◌, ◌≤◌, length};
ghost use Rattle.steps.specs.Clause.{last as Last};
ghost use Rattle.rows.specs.Values.{sequent_of};
ghost use Rattle.rows.specs.Rows.{sequent_words, sequent_at, sequents, put_sequent, Kept};

// How many words a D-sequent takes.
pub const WORDS: usize = 3;

// A record: the decided variables, those of them true, and the redundant ones.
#[derive(Clone, Copy)]
pub struct DSequent {
    pub decided: u64,
    pub trues: u64,
    pub redundant: u64,
}

// The D-sequent of number i.
pub fn sequent_at(rs: &[u64], i: usize) -> DSequent
    requires { sequent_words (i + 1) ≤ length rs.now }
    ensures { sequent_of result ≡ sequent_at rs.now i }
{
    DSequent {
        decided: rs[3 * i],
        trues: rs[3 * i + 1],
        redundant: rs[3 * i + 2],
    }
}

// The last D-sequent; no decisions and an empty set where there is none.
pub fn last(rs: &[u64], k: usize) -> DSequent
    requires { sequent_words k ≤ length rs.now }
    ensures { sequent_of result ≡ Last (sequents rs.now k) }
{
    if k == 0 {
        return DSequent {
            decided: 0,
            trues: 0,
            redundant: 0,
        };
    }
    sequent_at(rs, k - 1)
}

// Puts the D-sequent at number i.
#[tactic(auto, unfolding(crate::specs::Rows::put_sequent))]
pub fn put(rs: &mut [u64], i: usize, d: DSequent)
    requires { sequent_words (i + 1) ≤ length rs.old }
    ensures { rs.new ≡ put_sequent rs.old i (sequent_of d) }
{
    rs[3 * i] = d.decided;
    rs[3 * i + 1] = d.trues;
    rs[3 * i + 2] = d.redundant;
}

// Steps 6 and 7: keeps the D-sequents whose decisions do not name v, in order, and answers how many they are.
// In place, so by two numbers: the one that is read and the one that is put.
pub fn without(rs: &mut [u64], k: usize, v: u64) -> usize
    requires { sequent_words k ≤ length rs.old }
    ensures { Kept rs.old k v rs.new result }
{
    let mut j = 0;
    for i in 0..k {
        let d = sequent_at(rs, i);
        if !words::meets(d.decided, v) {
            put(rs, j, d);
            j += 1;
        }
    }
    j
}
