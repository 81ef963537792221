// Plays a script of calls from standard input, item by item, and writes the report of each; docs/CALLS.md has the items and the report.
// It stops at the end of input and at the first malformed item, for which it writes nothing.
#![tactic(auto)]

use std::io;
use std::io::{Read, Write};

fn main(rt: HostRuntime) -> io::Result<()> {
    let mut source = rt.stdin();
    let mut sink = rt.stdout();
    let mut disk = [0u8; 262_144];
    let mut stage = [0u8; 65_536];
    let mut input = [0u8; 65_536];
    let mut output = [0u8; 65_536];
    let mut item = [0u8; script::ITEM];
    let mut report = [0u8; script::REPORT];
    play_all(
        &mut source,
        &mut sink,
        &mut item,
        &mut disk,
        &mut stage,
        &mut input,
        &mut output,
        &mut report,
    )
}

// Kept: the areas are parameters, as `script::play_next` takes them.

// Item after item, up to one that is malformed or missing. No input has more bytes than `left` counts at first, nor more items than turns
// are counted.
fn play_all(
    source: &mut impl Read,
    sink: &mut impl Write,
    item: &mut [u8],
    disk: &mut [u8],
    stage: &mut [u8],
    input: &mut [u8],
    output: &mut [u8],
    report: &mut [u8],
) -> io::Result<()> {
    let mut host = script::no_host();
    let mut left: u64 = u64::MAX;
    for _ in 0..u64::MAX {
        let played = script::play_next(
            source, left, item, host, disk, stage, input, output, report,
        )?;
        let Some(done) = played.done else {
            break;
        };
        sink.write_all(&report[0..done.written])?;
        host = done.host;
        left = played.left;
    }
    Ok(())
}
