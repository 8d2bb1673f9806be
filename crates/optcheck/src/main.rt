// The program: reads standard input, makes one call on slices and writes the reply. Bytes past the buffer play no part in the reply
// (crate `reply`, `ReadableDecides`), so an input of any length has its own.
#![tactic(auto)]

use std::io;

fn main(rt: HostRuntime) -> io::Result<()> {
    let mut input = reply::input_buffer();
    let mut text = reply::reply_buffer();
    let n = console::read_full(&mut rt.reader(), &mut input)?;
    console::print_filled(&rt, &mut text, |out| reply::respond(&input[..n], out))
}
