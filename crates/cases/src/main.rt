// Many inputs of the programs `depot` and `calls`, from standard input, and a line for each: its place, its kind, how many bytes the program
// writes, and their digest. A case is its kind (`d` or `c`), its length in 8 bytes, and its bytes.
#![tactic(auto)]

mod depots; // depots.rt: an input of `depot`
mod scripts; // scripts.rt: a script of `calls`

use std::io;
use std::io::{Read, Write};
use stdout::hex;

fn main(rt: HostRuntime) -> io::Result<()> {
    let mut source = rt.stdin();
    let mut sink = rt.stdout();
    let mut shown = [0u8; 262_144];
    all_cases(&mut source, &mut sink, &mut shown)
}

// Case after case. No input has more than there are places to count.
fn all_cases(source: &mut impl Read, sink: &mut impl Write, shown: &mut [u8]) -> io::Result<()> {
    for place in 0..u64::MAX {
        if !one_case(source, sink, place, shown)? {
            break;
        }
    }
    Ok(())
}

// Plays the next case, and writes its line. It answers false where there is none, or none that is whole.
fn one_case(
    source: &mut impl Read,
    sink: &mut impl Write,
    place: u64,
    shown: &mut [u8],
) -> io::Result<bool> {
    let mut ahead = [0u8; 9];
    let got = stdin::full(source, &mut ahead)?;
    if got != 9 {
        return Ok(false);
    }
    let length = area::load(&ahead, 1);
    match ahead[0] {
        b'd' => {
            let n = depots::play(source, length, shown)?;
            line(sink, place, "depot", &shown[0..n])?;
            Ok(true)
        }
        b'c' => {
            let n = scripts::play(source, length, shown)?;
            line(sink, place, "calls", &shown[0..n])?;
            Ok(true)
        }
        _ => Ok(false),
    }
}

fn line(sink: &mut impl Write, place: u64, kind: &str, shown: &[u8]) -> io::Result<()> {
    let count = shown.len();
    write!(sink, "{place} {kind} {count} ")?;
    let mut digest = [0u8; 32];
    blake2b::digest(b"", shown, &mut digest).unwrap();
    hex(sink, &digest)?;
    writeln!(sink)
}
