// Interrupting a program.
ghost use Rattle.std.specs.Prelude.{◌≡◌, Ok, []};
ghost use Rattle.machine_rules.specs.Calls as Says;
ghost use Rattle.machine_rules.specs.Calls.{interrupt_lent, stopped};
ghost use Rattle.machine.specs.Asks.{Stops, interrupt_leaves};

use crate::{Done, refusing};
use host::{Host, Refusal};
use machine_rules::Failure;

// Whether an interrupt lends what is stated: the disk, and, if a program is open, its output area.
fn interrupt_lent(host: Host, disk: &[u8], output: &[u8]) -> bool
    ensures { result ≡ interrupt_lent host disk.now output.now }
{
    if !host_order::lent(host.sector, host.disk, disk) {
        return false;
    }
    let program = host.program;
    if !program.active {
        return true;
    }
    let terms = program.terms;
    output.len() as u64 == terms.room
}

// Record 20, for the first instruction not run. Its root comes from the roots that are kept: no area is looked at.
fn stop(host: Host, output: &mut [u8]) -> Done
    requires { Stops host output.old }
    ensures { interrupt_leaves host (Ok result) output.new ≡ stopped [] host output.old }
{
    let setting = machine_step::setting_of(host);
    let mut program = host.program;
    let progress = program.progress;
    let diskroots = host.diskroots;
    let number = Failure::Interrupted.number();
    let failed = machine_step::fail(setting, number, &diskroots, progress, output);
    program.progress = failed;
    let mut after = host;
    after.program = program;
    Done {
        tally: failed.tally,
        host: after,
    }
}

// Interrupts the program; or 1, 2, 4. Where it has ended or failed nothing changes.
pub fn interrupt(host: Host, disk: &[u8], output: &mut [u8]) -> Result<Done, Refusal>
    ensures { interrupt_leaves host result output.new ≡ Says.interrupt disk.now host output.old }
{
    let lent = interrupt_lent(host, disk, &*output);
    let program = host.program;
    let ordered = host_order::in_order(host);
    refusing::refusal(ordered, lent, program.active)?;
    if machine_step::going(program) {
        return Ok(stop(host, output));
    }
    Ok(Done {
        tally: program.progress.tally,
        host,
    })
}
