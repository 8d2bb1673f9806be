// Reading into a buffer for the programs, over the standard library's readers.
#![tactic(auto)]

ghost use Rattle.std.specs.Prelude.{◌≡◌, ◌≤◌, length, IfOk};

use std::io;
use std::io::Read;

// Reads until buf is full or the input ends, and returns how many bytes it put at the start of buf. Public for the programs. On an error buf holds what was read before.
pub fn read_full<R: Read>(reader: &mut R, buf: &mut [u8]) -> io::Result<usize>
    ensures { IfOk result (λ n. n ≤ length buf.new) }
{
    let mut done = 0;
    while done < buf.len() {
        let n = reader.read(&mut buf[done..])?;
        if n == 0 {
            break;
        }
        done += n;
    }
    Ok(done)
}

// Lends `fill` a buffer, and prints what it put at the start: as many bytes as it says. Public for the programs. The buffer holds what `fill` left; of what was printed a
// printer of the standard library promises nothing.
pub fn print_filled<F: FnOnce(&mut [u8]) -> usize>(
    rt: &impl Print,
    buf: &mut [u8],
    fill: F,
) -> io::Result<()>
    requires callable { (out : _) → out.now ≡ buf.old → F.pre fill out }
    requires within { (out : _) (n : _) (after : _) → out.now ≡ buf.old → F.post fill out n after → n ≤ length buf.old }
    ensures { (out : _) × (n : _) × (after : _) × (out.now ≡ buf.old) × (F.post fill out n after) × (after.now ≡ buf.new) }
{
    let n = fill(buf);
    rt.write_all(&buf[..n])
}
