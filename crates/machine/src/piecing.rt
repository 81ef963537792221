// Giving a program a piece of its data.
ghost use Rattle.std.specs.Prelude.{◌≡◌, Ok, ◌+◌, ◌≤◌, length, ltb};
ghost use Rattle.machine_rules.specs.Calls as Says;
ghost use Rattle.machine_rules.specs.Calls.{piece_lent, accepted};
ghost use Rattle.machine.specs.Asks.{Takes, piece_leaves};

use crate::{Done, refusing};
use host::{Host, Refusal};

// Whether a piece lends what is stated: disk and stage, and, if a program is open, its input and output areas.
fn piece_lent(host: Host, disk: &[u8], stage: &[u8], input: &[u8], output: &[u8]) -> bool
    ensures { result ≡ piece_lent host disk.now stage.now input.now output.now }
{
    let program = host.program;
    host_order::areas_right(host.sector, host.disk, host.stage, disk, stage)
        && (!program.active
            || (input.len() as u64 == program.terms.head.length
                && output.len() as u64 == program.terms.room))
}

// 12: whether a piece of n bytes passes the declared length.
fn passes(came: u64, n: usize, declared: u64) -> bool
    requires { came ≤ declared }
    ensures { result ≡ ltb declared (came + n) }
{
    declared - came < n as u64
}

// The piece is copied into the input area after the bytes already come; then instructions run in turn while their need has come.
fn accept(
    host: Host,
    disk: &[u8],
    stage: &mut [u8],
    input: &mut [u8],
    output: &mut [u8],
    bytes: &[u8],
) -> Done
    requires { Takes disk.now host stage.old input.old output.old bytes.now }
    ensures { piece_leaves host (Ok result) stage.new input.new output.new ≡
        accepted disk.now host stage.old input.old output.old bytes.now }
{
    let setting = machine_step::setting_of(host);
    let mut program = host.program;
    let start = program.progress;
    let came = program.came;
    area::copy_between(bytes, 0, input, came as usize, bytes.len());
    let k = came + bytes.len() as u64;
    let diskroots = host.diskroots;
    let mut stageroots = host.stageroots;
    let progress = machine_step::run(
        setting,
        &diskroots,
        disk,
        &*input,
        k,
        start,
        &mut stageroots,
        stage,
        output,
    );
    program.came = k;
    program.progress = progress;
    let mut after = host;
    after.program = program;
    after.stageroots = stageroots;
    Done {
        tally: progress.tally,
        host: after,
    }
}

// Gives the program a piece; or 1, 2, 4, 12.
pub fn piece(
    host: Host,
    disk: &[u8],
    stage: &mut [u8],
    input: &mut [u8],
    output: &mut [u8],
    bytes: &[u8],
) -> Result<Done, Refusal>
    ensures { piece_leaves host result stage.new input.new output.new ≡
        Says.piece disk.now host stage.old input.old output.old bytes.now }
{
    let lent = piece_lent(host, disk, &*stage, &*input, &*output);
    let program = host.program;
    let ordered = host_order::in_order(host);
    refusing::refusal(ordered, lent, program.active)?;
    let terms = program.terms;
    let head = terms.head;
    if passes(program.came, bytes.len(), head.length) {
        return Err(Refusal::TooMuchData);
    }
    Ok(accept(host, disk, stage, input, output, bytes))
}
