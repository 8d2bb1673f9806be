// The lines of the page.
ghost use Rattle.std.specs.Prelude.{◌<◌, ◌^◌, length};
ghost use Rattle.answer.specs.Answer.{tally_in};
ghost use Rattle.report.specs.Writer.{Free, Writes};
ghost use Rattle.page.specs.Page.{first_line, rule_lines, page_text};
ghost use Rattle.contract.specs.Demands.{rules_of};
ghost use Rattle.layout.specs.Layout.{numbered};

use crate::numbered::Numbered;
use crate::rule::put_rule;
use report::Writer;

// The first line: the word of the answer, its number, and the counts of branchings and derived rules.
fn put_first(a: Numbered, out: &mut Writer<'_>)
    requires a_bound { (tally_in (numbered a)).derived < 10 ^ 10 }
    requires room { Free out.old (first_line (numbered a)) }
    ensures { Writes out.old (first_line (numbered a)) out.new }
{
    let tally = a.tally();
    out.left(a.word(), 10);
    out.right(a.number() as u64, 10);
    out.right(tally.branchings as u64, 10);
    out.right(tally.derived as u64, 10);
    out.byte(b'\n');
}

// The lines of the rules of two tables of words, numbered from 1.
fn put_rules(pos: &[u64], neg: &[u64], out: &mut Writer<'_>)
    requires few { length pos.now < 10 ^ 4 }
    requires room { Free out.old (rule_lines 1 (rules_of pos.now neg.now)) }
    ensures { Writes out.old (rule_lines 1 (rules_of pos.now neg.now)) out.new }
{
    for (i, (p, n)) in pos.iter().zip(neg).enumerate() {
        put_rule(i as u64 + 1, *p, *n, out);
    }
}

// The whole page: the first line, and those of the rules.
pub fn put_lines(a: Numbered, pos: &[u64], neg: &[u64], out: &mut Writer<'_>)
    requires a_bound { (tally_in (numbered a)).derived < 10 ^ 10 }
    requires few { length pos.now < 10 ^ 4 }
    requires room { Free out.old (page_text (numbered a) (rules_of pos.now neg.now)) }
    ensures { Writes out.old (page_text (numbered a) (rules_of pos.now neg.now)) out.new }
{
    put_first(a, out);
    put_rules(pos, neg, out);
}
