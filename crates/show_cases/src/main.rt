// Many inputs of the program `show`, from standard input, and what it prints for each, under a line with its place and its length. An input is
// its length in 8 bytes, and its bytes.
#![tactic(auto)]

use std::io;
use std::io::{Read, Write};

// Input after input. There are no more than there are places to count.
fn main(rt: HostRuntime) -> io::Result<()> {
    let mut source = rt.stdin();
    let mut sink = rt.stdout();
    for place in 0..u64::MAX {
        if !one_input(&mut source, &mut sink, place)? {
            break;
        }
    }
    Ok(())
}

// Shows the next input. It answers false where there is none.
fn one_input(source: &mut impl Read, sink: &mut impl Write, place: u64) -> io::Result<bool> {
    let mut ahead = [0u8; 8];
    let got = stdin::full(source, &mut ahead)?;
    if got != 8 {
        return Ok(false);
    }
    let length = area::load(&ahead, 0);
    writeln!(sink, "input {place}, bytes {length}")?;
    showing::show_from(source, sink, length)?;
    Ok(true)
}
