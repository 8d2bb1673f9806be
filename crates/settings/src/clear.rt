// Clearing the lent tables.
ghost use Rattle.std.specs.Prelude.{◌≡◌, ◌≤◌, length, replicate};
ghost use Rattle.contract.specs.Filled.{written};
ghost use Rattle.checker.specs.Lent.{tables_of, SameReferences};
ghost use Rattle.undecided.specs.Undecided.{zeroed};
ghost use Rattle.settings.specs.Promises.{Counted, cleared};

use answer::Tally;
use checker::Tables;

// Clears the tables throughout.
pub fn all(tables: &mut Tables<'_>)
    ensures same_references { SameReferences tables.old tables.new }
    ensures zeroed { tables_of tables.new ≡ zeroed (tables_of tables.old) }
{
    tables.pos.fill(0);
    tables.neg.fill(0);
    tables.decided.fill(0);
    tables.trues.fill(0);
    tables.redundant.fill(0);
}

// Clears the first k places of a table.
fn first_places(k: usize, t: &mut [u64])
    requires { k ≤ length t.old }
    ensures { t.new ≡ written (replicate k 0) t.old }
{
    t[..k].fill(0);
}

// Clears the counted places: all that a check wrote.
pub fn counted(c: Tally, tables: &mut Tables<'_>)
    requires { Counted c (tables_of tables.old) }
    ensures same_references { SameReferences tables.old tables.new }
    ensures cleared { tables_of tables.new ≡ cleared c (tables_of tables.old) }
{
    first_places(c.derived, tables.pos);
    first_places(c.derived, tables.neg);
    first_places(c.records, tables.decided);
    first_places(c.records, tables.trues);
    first_places(c.records, tables.redundant);
}
