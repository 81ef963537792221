// What is printed of a record.
ghost use Rattle.std.specs.Prelude.{◌≤◌, length};

use crate::words;
use machine_rules::class::Class;
use std::io::Write;
use std::{fmt, io};
use stdout::hex;

// The most bytes of an output that are shown.
const SHOWN: usize = 64;

// A record's number: a failure's with its class and its words.
// Kept: `Clone` and `Copy` alone: nothing compares it.
#[derive(Clone, Copy)]
struct Number(u64);

impl fmt::Display for Number {
    fn fmt<W: fmt::Write>(&self, f: &mut fmt::Formatter<W>) -> fmt::Result {
        let n = self.0;
        let words = words::failure(n);
        match Class::from(n) {
            Class::Done => write!(f, "done"),
            Class::Interrupted => write!(f, "failed, {n} (interrupted)"),
            Class::Invalid => write!(f, "failed, {n} (invalid): {words}"),
            Class::Host => write!(f, "failed, {n} (host): {words}"),
            Class::Unknown => write!(f, "failed, {n} (no record's number)"),
        }
    }
}

// A record by its place, the bytes ahead of its hashes, the hashes, and its output.
pub fn record_line(
    sink: &mut impl Write,
    place: u64,
    ahead: &[u8],
    hashes: &[u8],
    output: &[u8],
) -> io::Result<()>
    requires { 64 ≤ length ahead.now }
{
    let number = Number(area::load(ahead, 0));
    let cost = area::load(ahead, 8);
    let size = area::load(ahead, 16);
    write!(sink, "{place}: {number}, cost {cost}, size {size}, root ")?;
    hex(sink, &ahead[24..56])?;
    let count = hashes.len() / 32;
    let many = output.len();
    writeln!(sink, ", proof hashes {count}, output bytes {many}")?;
    for hash in hashes.chunks_exact(32) {
        write!(sink, "   hash   ")?;
        hex(sink, hash)?;
        writeln!(sink)?;
    }
    output_line(sink, output)
}

fn output_line(sink: &mut impl Write, output: &[u8]) -> io::Result<()> {
    if output.is_empty() {
        return Ok(());
    }
    write!(sink, "   output ")?;
    if output.len() <= SHOWN {
        hex(sink, output)?;
        return writeln!(sink);
    }
    hex(sink, &output[0..SHOWN])?;
    writeln!(sink, "…")
}
