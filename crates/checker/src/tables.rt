// The lent tables: whether they are refused, and copying the counted places into them.
ghost use Rattle.std.specs.Prelude.{◌≡◌, ◌+◌, ◌≤◌, map, length};
ghost use Rattle.steps.specs.Clause.{Clause, DSequent};
ghost use Rattle.rows.specs.Rows.{clause_words, clauses_from, sequent_words, sequents};
ghost use Rattle.contract.specs.Check.{tables_fault};
ghost use Rattle.contract.specs.Filled.{lengths, written, filled_with};
ghost use Rattle.checker.specs.Work.{Fitting};
ghost use Rattle.checker.specs.Lent.{tables_of, lengths_of, SameReferences};

use answer::Tally;
use book::Book;
use rows::{records, table};

// Five tables of a caller: two for derived rules, three for records. Each function that is lent them says that the five references stay (`SameReferences`): a fact of
// before and after, which no fact of the type can say.
#[derive(Drop)]
pub struct Tables<'a> {
    pub pos: &'a mut [u64],
    pub neg: &'a mut [u64],
    pub decided: &'a mut [u64],
    pub trues: &'a mut [u64],
    pub redundant: &'a mut [u64],
}

// Their lengths.
#[derive(Clone, Copy)]
pub struct Lengths {
    pub pos: usize,
    pub neg: usize,
    pub decided: usize,
    pub trues: usize,
    pub redundant: usize,
}

impl Lengths {
    // Refusal 9.
    #[tactic(auto, unfolding(contract::specs::Check::tables_fault))]
    pub fn fault(self) -> bool
        ensures { result ≡ tables_fault (lengths_of self) }
    {
        self.pos != self.neg
            || Book::MAX_DERIVED < self.pos
            || self.decided < Book::MIN_RECORDS
            || self.trues < Book::MIN_RECORDS
            || self.redundant < Book::MIN_RECORDS
    }
}

impl<'a> Tables<'a> {
    // How long each is.
    pub fn lengths(&self) -> Lengths
        ensures { lengths_of result ≡ lengths (tables_of self.now) }
    {
        Lengths {
            pos: self.pos.len(),
            neg: self.neg.len(),
            decided: self.decided.len(),
            trues: self.trues.len(),
            redundant: self.redundant.len(),
        }
    }

    // Copies what was counted to the first places: the derived clauses stand after the first m of the one work table.
    pub(crate) fn fill(&mut self, t: &[u64], rs: &[u64], m: usize, tally: Tally)
        requires { Fitting t.now rs.now m tally (tables_of self.old) }
        ensures same_references { SameReferences self.old self.new }
        ensures filled { tables_of self.new ≡ filled_with (clauses_from t.now m tally.derived) (sequents rs.now tally.records) (tables_of self.old) }
    {
        let k = tally.derived;
        let r = tally.records;
        copy_clauses(t, m, k, self.pos, self.neg);
        copy_records(rs, r, self.decided, self.trues, self.redundant);
    }
}

// Copies k clauses, from the one of number m on, to the first k places of two tables.
fn copy_clauses(t: &[u64], m: usize, k: usize, pos: &mut [u64], neg: &mut [u64])
    requires in_table { clause_words (m + k) ≤ length t.now }
    requires in_pos { k ≤ length pos.old }
    requires in_neg { k ≤ length neg.old }
    ensures pos { pos.new ≡ written (map (λ (c : Clause). c.pos) (clauses_from t.now m k)) pos.old }
    ensures neg { neg.new ≡ written (map (λ (c : Clause). c.neg) (clauses_from t.now m k)) neg.old }
{
    for i in 0..k {
        let c = table::clause_at(t, m + i);
        pos[i] = c.pos;
        neg[i] = c.neg;
    }
}

// Copies the first k D-sequents to the first k places of three tables.
#[tactic(auto, unfolding(rows::specs::Rows::sequents))]
fn copy_records(rs: &[u64], k: usize, decided: &mut [u64], trues: &mut [u64], redundant: &mut [u64])
    requires in_list { sequent_words k ≤ length rs.now }
    requires in_decided { k ≤ length decided.old }
    requires in_trues { k ≤ length trues.old }
    requires in_redundant { k ≤ length redundant.old }
    ensures decided { decided.new ≡ written (map (λ (d : DSequent). d.decisions.decided) (sequents rs.now k)) decided.old }
    ensures trues { trues.new ≡ written (map (λ (d : DSequent). d.decisions.trues) (sequents rs.now k)) trues.old }
    ensures redundant { redundant.new ≡ written (map (λ (d : DSequent). d.redundant) (sequents rs.now k)) redundant.old }
{
    for i in 0..k {
        let d = records::sequent_at(rs, i);
        decided[i] = d.decided;
        trues[i] = d.trues;
        redundant[i] = d.redundant;
    }
}
