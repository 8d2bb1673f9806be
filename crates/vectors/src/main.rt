// Stored inputs of the two programs, one after the other. Before each stand one byte, 0 for the first program and 1 for the page, and its length: two bytes, low
// byte first. The replies and pages are written one after the other, and `rt ci` holds them to the stored ones.
#![tactic(auto)]

use std::io;
use std::io::Read;

// The program that an input is for.
#[derive(Clone, Copy)]
enum Program {
    Reply,
    Page,
}

// There is no program of this number.
#[derive(Clone, Copy)]
struct NoProgram;

impl TryFrom<u8> for Program {
    type Error = NoProgram;

    fn try_from(number: u8) -> Result<Program, NoProgram> {
        match number {
            0 => Ok(Program::Reply),
            1 => Ok(Program::Page),
            _ => Err(NoProgram),
        }
    }
}

// Writes the reply. Each buffer is in a function of its own, which pays for it only where it is called.
fn reply_to(rt: &impl Print, input: &[u8]) -> io::Result<()> {
    let mut text = reply::reply_buffer();
    console::print_filled(rt, &mut text, |out| reply::respond(input, out))
}

// Writes the page.
fn page_of(rt: &impl Print, input: &[u8]) -> io::Result<()> {
    let mut page = filing::page_buffer();
    console::print_filled(rt, &mut page, |out| filing::respond(input, out))
}

impl Program {
    // Writes what the program writes for an input.
    fn answer(self, rt: &impl Print, input: &[u8]) -> io::Result<()> {
        match self {
            Program::Reply => reply_to(rt, input),
            Program::Page => page_of(rt, input),
        }
    }
}

// Reads an input and answers it, and says whether there was one.
fn answer_next<R: Read>(rt: &impl Print, reader: &mut R) -> io::Result<bool> {
    let mut head = [0u8; 3];
    if console::read_full(reader, &mut head)? < 3 {
        return Ok(false);
    }
    let [number, low, high] = head;
    let length = u16::from_le_bytes([low, high]) as usize;
    if length > reply::READABLE {
        return Ok(false);
    }
    let mut input = reply::input_buffer();
    console::read_full(reader, &mut input[..length])?;
    let Ok(program) = Program::try_from(number) else {
        return Ok(false);
    };
    program.answer(rt, &input[..length])?;
    Ok(true)
}

// A proved loop has to end, and nothing says that the input does: it counts to a number that no run comes to.
fn main(rt: HostRuntime) -> io::Result<()> {
    let mut reader = rt.reader();
    for _ in 0..u64::MAX {
        if !answer_next(&rt, &mut reader)? {
            break;
        }
    }
    Ok(())
}
