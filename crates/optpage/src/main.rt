// The second program: reads standard input as the first one does, makes one call on slices and writes the page. Bytes past the buffer play no part in the page
// (crate `page`, `ReadableDecides`), so an input of any length has its own.
#![tactic(auto)]

use std::io;

fn main(rt: HostRuntime) -> io::Result<()> {
    let mut input = reply::input_buffer();
    let mut page = filing::page_buffer();
    let n = console::read_full(&mut rt.reader(), &mut input)?;
    console::print_filled(&rt, &mut page, |out| filing::respond(&input[..n], out))
}
