// Heads from standard input, read and written again. A case is 8 bytes with a length, then that many bytes. A line is written for
// each: the reader's number, and, where that is 0, the head, with one entry past each count, and what the writer makes of it: over an
// area that is longer, over one that is a byte too short, and of the same head with a count or the length above its limit.
#![tactic(auto)]

ghost use Rattle.std.specs.Prelude.{◌≤◌, length};

use sia::{Head, Instruction, Op};
use sia_write::Refusal;
use std::io;
use std::io::{Read, Write};
use stdout::hex;

// What an area holds before the writer is called.
const BEFORE: u8 = 0xaa;

fn main(rt: HostRuntime) -> io::Result<()> {
    let mut source = rt.stdin();
    let mut sink = rt.stdout();
    for _ in 0..1_000_000 {
        if !one_case(&mut source, &mut sink)? {
            break;
        }
    }
    Ok(())
}

// Takes the next case. It answers false where there is none.
fn one_case(source: &mut impl Read, sink: &mut impl Write) -> io::Result<bool> {
    let mut prefix = [0; 8];
    if stdin::full(source, &mut prefix)? != prefix.len() {
        return Ok(false);
    }
    let n = u64::from_le_bytes(prefix) as usize;
    let mut bytes = [0; 4096];
    if bytes.len() < n || stdin::full(source, &mut bytes[..n])? != n {
        return Ok(false);
    }
    show(sink, &bytes[..n])?;
    Ok(true)
}

// A line for one case. A fault comes with no head, which is the 1 behind its number.
fn show(sink: &mut impl Write, bytes: &[u8]) -> io::Result<()> {
    match sia_read::read_head(bytes) {
        Err(fault) => writeln!(sink, "{} 1", fault.number()),
        Ok(head) => {
            write!(sink, "0")?;
            show_head(sink, &head)?;
            let mut out = [BEFORE; 4096];
            written(sink, &head, bytes, &mut out)?;
            too_short(sink, &head, bytes.len(), &mut out)?;
            above(sink, &head, &mut out)?;
            writeln!(sink)
        }
    }
}

fn show_head(sink: &mut impl Write, head: &Head) -> io::Result<()> {
    write!(sink, " ")?;
    hex(sink, &head.contract)?;
    let read_only = sia::is_read_only(head.contract);
    write!(
        sink,
        " read-only {} count {}",
        u8::from(read_only),
        head.count
    )?;
    // Those within the count, and one past it.
    for x in head
        .instructions
        .iter()
        .take(head.count.saturating_add(1) as usize)
    {
        show_instruction(sink, x)?;
    }
    write!(sink, " length {}", head.length)
}

fn op_number(op: Op) -> u64 {
    match op {
        Op::Unknown => 0,
        Op::Read => 1,
        Op::ReadSector => 2,
        Op::Write => 3,
        Op::Copy => 4,
        Op::Swap => 5,
        Op::Truncate => 6,
    }
}

fn show_instruction(sink: &mut impl Write, x: &Instruction) -> io::Result<()> {
    write!(sink, " [{} ", op_number(sia::op_of(x.name)))?;
    hex(sink, &x.name)?;
    write!(sink, " {}", x.count)?;
    for o in &x.operands {
        write!(sink, " {},{}", o.offset, o.len)?;
    }
    write!(sink, " {}]", u8::from(x.proof))
}

// The writer's number, and the length of what it wrote.
fn show_answer(sink: &mut impl Write, answered: Result<usize, Refusal>) -> io::Result<()> {
    match answered {
        Ok(n) => write!(sink, " 0 {n} "),
        Err(refusal) => write!(sink, " {} 0 ", refusal.number()),
    }
}

// 1 where an area is as it was before, 0 where it is not.
fn show_before(sink: &mut impl Write, area: &[u8]) -> io::Result<()> {
    write!(sink, "{}", u8::from(area.iter().all(|&b| b == BEFORE)))
}

// Kept: no plainer. A struct of sink, head and area would be made for three calls, and each would take it apart again.
// The head over the area: number and length, whether the bytes are those that were read, whether the rest stays.
fn written(sink: &mut impl Write, head: &Head, bytes: &[u8], out: &mut [u8]) -> io::Result<()> {
    let answered = sia_write::write_head(*head, out);
    write!(sink, " written")?;
    show_answer(sink, answered)?;
    let n = answered.unwrap_or(0);
    if n <= out.len() {
        write!(sink, "{}", u8::from(&out[..n] == bytes))?;
        show_before(sink, &out[n..])?;
    }
    Ok(())
}

// The head over an area that is a byte too short: number and length, whether the area stays.
fn too_short(sink: &mut impl Write, head: &Head, length: usize, out: &mut [u8]) -> io::Result<()> {
    if 0 < length && length <= out.len() {
        write!(sink, " short")?;
        refused(sink, *head, out, length - 1)?;
    }
    Ok(())
}

// The head with a count or the length above its limit.
fn above(sink: &mut impl Write, head: &Head, out: &mut [u8]) -> io::Result<()> {
    write!(sink, " above")?;
    let room = out.len();
    for count in [33, u64::MAX] {
        refused(sink, Head { count, ..*head }, out, room)?;
    }
    for length in [65_537, u64::MAX] {
        refused(sink, Head { length, ..*head }, out, room)?;
    }
    let mut full = Head { count: 1, ..*head };
    full.instructions[0].count = 5;
    refused(sink, full, out, room)
}

// Number and length, whether the area stays.
fn refused(sink: &mut impl Write, head: Head, out: &mut [u8], room: usize) -> io::Result<()>
    requires { room ≤ length out.old }
{
    out.fill(BEFORE);
    let answered = sia_write::write_head(head, &mut out[..room]);
    show_answer(sink, answered)?;
    show_before(sink, out)
}
