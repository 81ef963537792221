// Scripts of calls: an item of a script is one call, with the areas that it lends, a proof for the checker, or a number that is put into the
// host's record to damage it. Playing an item makes the call, and reports what it answered, the host, and digests of the whole areas and of
// the kept roots. Numbers are 8 bytes, the lowest first.
#![tactic(auto)]

ghost use Rattle.std.specs.Prelude.{◌≡◌, ◌≤◌, length, IfSome, MatchResult};

mod items; // items.rt: each kind of item, and its call
mod reader; // reader.rt: items from standard input
mod shapes; // shapes.rt: where an item ends

use machine::Host;
pub use reader::ITEM;
use std::io;
use std::io::Read;

// The most bytes of a report: the answer of `reached` with its root, three numbers, eight places with 64 slots each, an open program, six digests.
pub const REPORT: usize = 5_320;

// What came of an item: `left` counts the bytes that the script may still use. Where nothing is done the item is malformed, and nothing changed.
// Kept: `Clone` and `Copy` alone, here and below: nothing compares or prints these.
#[derive(Clone, Copy)]
pub struct Played {
    pub left: u64,
    pub done: Option<Done>,
}

// The bytes of the item's report, and the host that it left.
#[derive(Clone, Copy)]
pub struct Done {
    pub written: usize,
    pub host: Host,
}

// The host of a refused fresh, which stands before the first item.
pub fn no_host() -> Host {
    machine::unmade()
}

// Reads the next item of a script that may use `left` bytes more of standard input, and plays it. Where none is left, or none that is whole,
// it is malformed.
// Kept: the areas are four parameters, since the clause says of each what a failed read leaves, and `machine`'s calls take them one by one.
#[rattlefmt::skip]
pub fn play_next(
    source: &mut impl Read, left: u64, item: &mut [u8], host: Host,
    disk: &mut [u8], stage: &mut [u8], input: &mut [u8], output: &mut [u8], report: &mut [u8],
) -> io::Result<Played>
    ensures { MatchResult result (λ p. (p.left ≤ left) × IfSome p.done (λ d. d.written ≤ length report.old))
        (λ _. (disk.new ≡ disk.old) × (stage.new ≡ stage.old) × (input.new ≡ input.old) × (output.new ≡ output.old) × (report.new ≡ report.old)) }
{
    let came = reader::next_from(source, left, item)?;
    let done = match came.length {
        Some(n) => play(&item[0..n], host, disk, stage, input, output, report),
        None => None,
    };
    Ok(Played { left: came.left, done })
}

// Plays the item that `item` begins with. The areas that its call lends are front parts of these.
#[rattlefmt::skip]
fn play(
    item: &[u8], host: Host, disk: &mut [u8], stage: &mut [u8], input: &mut [u8], output: &mut [u8], report: &mut [u8],
) -> Option<Done>
    ensures { IfSome result (λ d. d.written ≤ length report.old) }
{
    if report.len() < REPORT {
        return None;
    }
    let used = shapes::whole(item)?;
    let made = items::make(&item[0..used], host, disk, stage, input, output)?;
    let written = script_report::write(made, &*disk, &*stage, &*input, &*output, report);
    Some(Done { written, host: made.host })
}
