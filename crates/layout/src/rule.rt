// The line of a derived rule.
ghost use Rattle.std.specs.Prelude.{◌≡◌, ◌≤◌, ◌<◌, ◌^◌, ◌++◌, length};
ghost use Rattle.words.specs.Words.{has};
ghost use Rattle.report.specs.Ascii.{ascii};
ghost use Rattle.report.specs.Writer.{Free, Writes};
ghost use Rattle.page.specs.Entries.{entry_at, entries, spaced, counted, shown};
ghost use Rattle.page.specs.Page.{rule_line};
ghost use Rattle.layout.specs.Layout.{Begins, Started};

use report::Writer;

// The most characters for a rule and the blank before it.
const ROOM: usize = 36;

// No text of a rule is longer: a blank, a minus and two digits for each option.
const TEXT: usize = 4 * 64;

// A blank and the entry of the variable of number v, where the rule has one.
fn put_entry(pos: u64, neg: u64, v: u32, out: &mut Writer<'_>)
    requires v_bound { v < 64 }
    requires room { Free out.old (spaced (entry_at v (has pos v) (has neg v))) }
    ensures { Writes out.old (spaced (entry_at v (has pos v) (has neg v))) out.new }
{
    if words::bit_of(pos, v) == 1 {
        out.byte(b' ');
        out.number(v as u64 + 1);
    } else if words::bit_of(neg, v) == 1 {
        out.text(b" -");
        out.number(v as u64 + 1);
    }
}

// The rule's entries, a blank before each.
fn put_entries(pos: u64, neg: u64, out: &mut Writer<'_>)
    requires { Free out.old (spaced (entries (record { pos = pos; neg = neg }))) }
    ensures { Writes out.old (spaced (entries (record { pos = pos; neg = neg }))) out.new }
{
    for v in 0..64 {
        put_entry(pos, neg, v, out);
    }
}

// A blank and how many entries there are.
fn put_count(count: u64, out: &mut Writer<'_>)
    requires { Free out.old (ascii " " ++ counted count) }
    ensures { Writes out.old (ascii " " ++ counted count) out.new }
{
    out.text(b" (");
    out.number(count);
    out.text(b" entries)");
}

// A blank and the text of a rule, at the start of a buffer of its own, whose writer is then after them.
fn show(pos: u64, neg: u64, out: &mut Writer<'_>)
    requires start { out.old.at ≡ 0 }
    requires room { 256 ≤ length out.old.out.now }
    ensures { Started out.old (ascii " " ++ shown (entries (record { pos = pos; neg = neg }))) out.new }
{
    put_entries(pos, neg, out);
    if out.at == 0 {
        out.text(b" none");
    } else if out.at > ROOM {
        out.at = 0;
        put_count(words::count_of(pos | neg) as u64, out);
    }
}

// The same, with their length.
fn put_shown(pos: u64, neg: u64, text: &mut [u8]) -> usize
    requires { 256 ≤ length text.old }
    ensures { Begins (ascii " " ++ shown (entries (record { pos = pos; neg = neg }))) text.new result }
{
    let mut writer = Writer { out: text, at: 0 };
    show(pos, neg, &mut writer);
    writer.at
}

// The line of the derived rule of a number.
pub fn put_rule(number: u64, pos: u64, neg: u64, out: &mut Writer<'_>)
    requires number_bound { number < 10 ^ 4 }
    requires room { Free out.old (rule_line number (record { pos = pos; neg = neg })) }
    ensures { Writes out.old (rule_line number (record { pos = pos; neg = neg })) out.new }
{
    let mut text = [0u8; TEXT];
    let size = put_shown(pos, neg, &mut text);
    out.right(number, 4);
    out.left(&text[..size], ROOM);
    out.byte(b'\n');
}
