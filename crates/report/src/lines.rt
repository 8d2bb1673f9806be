// The lines of the text.
ghost use Rattle.std.specs.Prelude.{◌≡◌, ◌++◌};
ghost use Rattle.answer.specs.Numbers.{by_number};
ghost use Rattle.report.specs.Text.{word_text, line, clause_lines, record_lines};
ghost use Rattle.report.specs.Writer.{Free, Writes};

use crate::writer::Writer;
use answer::Answer;

// The word of an answer, which the text begins with. It is public, as is the text that begins with it.
pub fn printed_word(a: Answer) -> &'static [u8]
    ensures { result.now ≡ word_text (by_number a) }
{
    match a {
        Answer::Can(_) => b"can",
        Answer::Cannot(_) => b"cannot",
        Answer::Refused(_) => b"refused",
        Answer::Stopped(_, _) => b"stopped",
    }
}

impl<'a> Writer<'a> {
    // A line: a word and numbers.
    fn line(&mut self, word: &[u8], numbers: &[u64])
        requires { Free self.old (line word.now numbers.now) }
        ensures { Writes self.old (line word.now numbers.now) self.new }
    {
        self.text(word);
        for n in numbers {
            self.byte(b' ');
            self.number(*n);
        }
        self.byte(b'\n');
    }

    // The lines of clauses whose two words stand side by side.
    fn clauses(&mut self, pos: &[u64], neg: &[u64])
        requires { Free self.old (clause_lines pos.now neg.now) }
        ensures { Writes self.old (clause_lines pos.now neg.now) self.new }
    {
        for (p, n) in pos.iter().zip(neg) {
            self.line(b"d", &[*p, *n]);
        }
    }

    // The lines of records whose three words stand side by side.
    fn records(&mut self, decided: &[u64], trues: &[u64], redundant: &[u64])
        requires { Free self.old (record_lines decided.now trues.now redundant.now) }
        ensures { Writes self.old (record_lines decided.now trues.now redundant.now) self.new }
    {
        for ((d, t), r) in decided.iter().zip(trues).zip(redundant) {
            self.line(b"r", &[*d, *t, *r]);
        }
    }

    // The whole text: the first line, by its word and numbers, and the lines of the clauses and of the records.
    pub(crate) fn lines(
        &mut self,
        word: &[u8],
        numbers: &[u64],
        pos: &[u64],
        neg: &[u64],
        decided: &[u64],
        trues: &[u64],
        redundant: &[u64],
    )
        requires { Free self.old (line word.now numbers.now ++ (clause_lines pos.now neg.now ++ record_lines decided.now trues.now redundant.now)) }
        ensures { Writes self.old (line word.now numbers.now ++ (clause_lines pos.now neg.now ++ record_lines decided.now trues.now redundant.now)) self.new }
    {
        self.line(word, numbers);
        self.clauses(pos, neg);
        self.records(decided, trues, redundant);
    }
}
