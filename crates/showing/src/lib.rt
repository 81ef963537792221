// Records, as `depot` writes them, printed for a person: a line a record, and behind it, indented, the hashes of its proof and its output. A
// refusal, which is 8 bytes and nothing more, is one line. What makes no sense is told with its place.
#![tactic(auto)]

mod lines; // lines.rt: what is printed of a record
mod parts; // parts.rt: where the parts of a record stand
mod words; // words.rt: numbers in words

use parts::{Fault, parts_at};
use std::io;
use std::io::{Read, Write};

// Shows one input, which may use at most `left` bytes of standard input; all of them are read.
pub fn show_from(source: &mut impl Read, sink: &mut impl Write, left: u64) -> io::Result<()> {
    let mut input = [0u8; 65536];
    let n = stdin::fill(source, left, &mut input)?;
    show(sink, &input[0..n])?;
    if n == 65536 {
        beyond(source, sink, left - n as u64)?;
    }
    Ok(())
}

// What is left of an input that is longer than any output area.
fn beyond(source: &mut impl Read, sink: &mut impl Write, left: u64) -> io::Result<()> {
    if 0 < stdin::skip(source, left)? {
        writeln!(
            sink,
            "stopped at byte 65536: no output area is longer, and the bytes from there on are not shown"
        )?;
    }
    Ok(())
}

fn show(sink: &mut impl Write, input: &[u8]) -> io::Result<()> {
    match input.len() {
        0 => writeln!(sink, "no records"),
        8 => {
            let number = area::load(input, 0);
            let words = words::refusal(number);
            writeln!(sink, "refused: {number}, {words}")
        }
        _ => records(sink, input),
    }
}

// Record by record, up to the first fault, which is told with its place.
fn records(sink: &mut impl Write, input: &[u8]) -> io::Result<()> {
    let mut place: u64 = 1;
    let mut at: usize = 0;
    // Kept: no plainer, `at` moves on by a record's length, which is known once it is read.
    while at < input.len() {
        match parts_at(input, at) {
            Ok(p) => {
                lines::record_line(
                    sink,
                    place,
                    &input[at..p.hashes],
                    &input[p.hashes..p.middle],
                    &input[p.output..p.end],
                )?;
                at = p.end;
                place += 1;
            }
            Err(Fault { missing, from }) => {
                return writeln!(
                    sink,
                    "{place}: makes no sense from byte {from} on: {missing}"
                );
            }
        }
    }
    Ok(())
}
