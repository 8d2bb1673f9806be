// Words as eight bytes, low byte first.
ghost use Rattle.std.specs.Prelude.{◌≡◌, ◌+◌, ◌≤◌, length};
ghost use Rattle.book.specs.Bytes.{bytes_of, word_at};
ghost use Rattle.book.specs.Written.{placed};

// The word whose bytes begin at `at`. Public for a program that reads an order's words, and shows that there are eight bytes.
pub fn word_at(bytes: &[u8], at: usize) -> u64
    requires { at + 8 ≤ length bytes.now }
    ensures { result ≡ word_at bytes.now at }
{
    let mut eight = [0; 8];
    eight.copy_from_slice(&bytes[at..at + 8]);
    u64::from_le_bytes(eight)
}

// Writes the bytes of a word from `at` on.
pub fn put_word(word: u64, at: usize, out: &mut [u8])
    requires { at + 8 ≤ length out.old }
    ensures { out.new ≡ placed out.old at (bytes_of 8 word) }
{
    out[at..at + 8].copy_from_slice(&word.to_le_bytes());
}
