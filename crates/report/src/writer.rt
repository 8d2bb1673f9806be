// Writing into a lent buffer, part after part: bytes, texts, numbers in decimal, and both in fields of a fixed width, filled up with blanks.
ghost use Rattle.std.specs.Prelude.{[], ◌∷◌, ◌≡◌, ◌≤◌, length};
ghost use Rattle.report.specs.Decimal.{decimal};
ghost use Rattle.report.specs.Fields.{blanks, set_left, set_right};
ghost use Rattle.report.specs.Writer.{Free, Writes};

use itoa::Buffer;

// A buffer, and the place in it where the next part goes.
#[derive(Drop)]
pub struct Writer<'a> {
    pub out: &'a mut [u8],
    pub at: usize,
}

impl<'a> Writer<'a> {
    // One byte.
    pub fn byte(&mut self, byte: u8)
        requires { Free self.old (byte ∷ []) }
        ensures { Writes self.old (byte ∷ []) self.new }
    {
        self.out[self.at] = byte;
        self.at += 1;
    }

    // The bytes of a text.
    pub fn text(&mut self, text: &[u8])
        requires { Free self.old text.now }
        ensures { Writes self.old text.now self.new }
    {
        self.out[self.at..self.at + text.len()].copy_from_slice(text);
        self.at += text.len();
    }

    // A number in decimal.
    pub fn number(&mut self, n: u64)
        requires { Free self.old (decimal n) }
        ensures { Writes self.old (decimal n) self.new }
    {
        self.text(digits_of(n, &mut Buffer::new()));
    }

    // So many blanks.
    fn blanks(&mut self, count: usize)
        requires { Free self.old (blanks count) }
        ensures { Writes self.old (blanks count) self.new }
    {
        self.out[self.at..self.at + count].fill(b' ');
        self.at += count;
    }

    // A text at the left of its field.
    pub fn left(&mut self, text: &[u8], width: usize)
        requires text_len_bound { length text.now ≤ width }
        requires room { Free self.old (set_left width text.now) }
        ensures { Writes self.old (set_left width text.now) self.new }
    {
        self.text(text);
        self.blanks(width - text.len());
    }

    // A number at the right of its field.
    pub fn right(&mut self, n: u64, width: usize)
        requires n_len_bound { length (decimal n) ≤ width }
        requires room { Free self.old (set_right width (decimal n)) }
        ensures { Writes self.old (set_right width (decimal n)) self.new }
    {
        let mut buffer = Buffer::new();
        let digits = digits_of(n, &mut buffer);
        self.blanks(width - digits.len());
        self.text(digits);
    }
}

// The digits of a number in decimal.
fn digits_of(n: u64, buffer: &mut Buffer) -> &[u8]
    ensures { result.now ≡ decimal n }
{
    buffer.format(n).as_bytes()
}
