// Taking an instruction: checks 21 to 42 and its cost, then either its failure, or its effect and its record.
ghost use Rattle.std.specs.Prelude.{◌≡◌};
ghost use Rattle.machine_rules.specs.View.{volume, turn};
ghost use Rattle.machine_step.specs.Asks.{Steps, stepped_turn};

use crate::{roots, running};
use host::Progress;
use machine_rules::Setting;
use sia::Instruction;

// One instruction.
#[rattlefmt::skip]
pub fn step<'a>(
    setting: Setting,
    diskroots: &'a [u8],
    disk: &'a [u8],
    input: &[u8],
    i: Instruction,
    progress: Progress,
    stageroots: &mut [u8],
    stage: &mut [u8],
    output: &mut [u8],
) -> Progress
    requires { Steps setting (volume disk.now diskroots.now) (turn progress stage.old output.old stageroots.old) input.now }
    ensures { turn result stage.new output.new stageroots.new ≡
        stepped_turn setting (volume disk.now diskroots.now) i input.now
        (turn progress stage.old output.old stageroots.old) }
{
    match machine_plan::planned(setting, progress, i, diskroots, &*stageroots, input) {
        Ok(task) => running::succeed(
            setting, diskroots, disk, input, i, task, progress, stageroots, stage, output
        ),
        Err(failure) => roots::fail(setting, failure.number(), diskroots, progress, output),
    }
}
