// What is found of open options, told in numbers: the word of an answer, and in two places of the caller the verdict and the last setting tried.
#![tactic(auto)]

ghost use Rattle.order.specs.Values.{order_of};
ghost use Rattle.checker.specs.Lent.{tables_of, SameReferences};
ghost use Rattle.undecided.specs.Told.{Told};

use answer::Answer;
use checker::Tables;
use order::Order;

// Tries the settings of the options in `opens` (crate `trying`), and returns the word of the last setting's answer, or that of a refusal. `verdict` is then the
// number of the verdict and `setting` the last setting tried; a refusal changes neither.
pub fn undecided(
    book: &[u8],
    o: Order,
    opens: u64,
    allowance: u32,
    verdict: &mut u32,
    setting: &mut u64,
    tables: &mut Tables<'_>,
) -> u64
    ensures same_references { SameReferences tables.old tables.new }
    ensures told { Told book.now (order_of o) opens allowance verdict.old setting.old (tables_of tables.old) result verdict.new setting.new (tables_of tables.new) }
{
    match trying::undecided(book, o, opens, allowance, tables) {
        Err(refusal) => answer::word_of(Answer::Refused(refusal)),
        Ok(found) => {
            *verdict = u32::from(found.verdict);
            *setting = found.setting;
            answer::word_of(found.last)
        }
    }
}
