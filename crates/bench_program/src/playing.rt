// Opening a program, giving it its data as one piece, and closing it.
ghost use Rattle.std.specs.Prelude.{◌≡◌, Some, min};
ghost use Rattle.host.specs.Refusals.{number_in};
ghost use Rattle.machine.specs.Closes.{close_leaves, end_number};
ghost use Rattle.bench_program.specs.Single as Says;
ghost use Rattle.bench_program.specs.Single.{leaves, ended, given, begun};

use crate::Outcome;
use machine::{Closing, End, Host, Prices, Refusal};

// A refusal shows no record.
pub fn refused(why: Refusal, host: Host) -> Outcome
    ensures { result ≡ record { refused = Some why; written = 0; host = host } }
{
    Outcome {
        refused: Some(why),
        written: 0,
        host,
    }
}

// Agrees to the pair reached; gives up after a failure.
fn finish(host: Host, disk: &mut [u8], stage: &[u8]) -> Result<Closing, Refusal>
    ensures { close_leaves host result disk.new ≡ ended disk.old host stage.now }
{
    let pair = machine::reached(host, &*disk, stage)?;
    machine::close(
        host,
        disk,
        stage,
        !host.program.progress.failed,
        pair.size,
        pair.root,
    )
}

// What a close leaves of a program that has written so many bytes of records: it shows none of them where the agreement was refused.
fn closed(done: Closing, written: u64) -> Outcome
    ensures number { number_in result.refused ≡ end_number done.end }
    ensures shown { result.written ≡ Says.shown (end_number done.end) written }
    ensures host { result.host ≡ done.host }
{
    match done.end {
        End::Closed => Outcome {
            refused: None,
            written,
            host: done.host,
        },
        End::Disagreed => refused(Refusal::Disagreed, done.host),
    }
}

// As much of a length as an area has.
pub fn least(length: u64, room: usize) -> usize
    ensures { result ≡ min length room }
{
    if length < room as u64 {
        return length as usize;
    }
    room
}

// Gives the data as one piece, with the front part of the input area, and closes.
fn give(
    host: Host,
    bytes: &[u8],
    disk: &mut [u8],
    stage: &mut [u8],
    input: &mut [u8],
    output: &mut [u8],
) -> Outcome
    ensures { leaves result disk.new stage.new input.new output.new ≡
        given host bytes.now disk.old stage.old input.old output.old }
{
    let program = host.program;
    let terms = program.terms;
    let head = terms.head;
    let n = least(head.length, input.len());
    let taken = match machine::piece(host, &*disk, stage, &mut input[0..n], output, bytes) {
        Ok(taken) => taken,
        Err(why) => return refused(why, host),
    };
    match finish(taken.host, disk, &*stage) {
        Ok(done) => closed(done, taken.host.program.progress.written),
        Err(why) => refused(why, taken.host),
    }
}

// Opens a head, with the output area's length as output length, and plays it.
pub fn begin(
    host: Host,
    prices: Prices,
    budget: u64,
    head: &[u8],
    bytes: &[u8],
    disk: &mut [u8],
    stage: &mut [u8],
    input: &mut [u8],
    output: &mut [u8],
) -> Outcome
    ensures { leaves result disk.new stage.new input.new output.new ≡
        begun host prices budget head.now bytes.now disk.old stage.old input.old
        output.old }
{
    match machine::open(host, head, budget, prices, output.len() as u64) {
        Ok(opened) => give(opened.host, bytes, disk, stage, input, output),
        Err(why) => refused(why, host),
    }
}
