// Instructions in turn, while their need has come.
ghost use Rattle.std.specs.Prelude.{◌≡◌, not, leb, ltb};
ghost use Rattle.lists.specs.Pick.{both};
ghost use Rattle.machine_rules.specs.View.{volume, turn};
ghost use Rattle.machine_rules.specs.Inputs.{need};
ghost use Rattle.machine_rules.specs.Run as Says;
ghost use Rattle.machine_step.specs.Turns.{Runs};

use crate::taking;
use host::Progress;
use machine_rules::Setting;
use sia::Instruction;

// Whether a program of so many instructions has neither ended nor failed.
pub fn goes_on(count: u64, progress: Progress) -> bool
    ensures { result ≡ both (not progress.failed) (ltb progress.ran count) }
{
    !progress.failed && progress.ran < count
}

// Whether the need of an instruction has come, with k bytes.
fn ready(declared: u64, i: Instruction, k: u64) -> bool
    ensures { result ≡ leb (need declared i) k }
{
    machine_inputs::need(declared, i) <= k
}

// At most as many as the head has.
// Kept: a while, since its test is of the progress that a step leaves; a `for` over the instructions would ask `goes_on` all the same.
#[rattlefmt::skip]
pub fn run<'a>(
    setting: Setting,
    diskroots: &'a [u8],
    disk: &'a [u8],
    input: &[u8],
    k: u64,
    start: Progress,
    stageroots: &mut [u8],
    stage: &mut [u8],
    output: &mut [u8],
) -> Progress
    requires { Runs setting (volume disk.now diskroots.now) (turn start stage.old output.old stageroots.old) input.now }
    ensures { turn result stage.new output.new stageroots.new ≡
        Says.run setting (volume disk.now diskroots.now) input.now k
        (turn start stage.old output.old stageroots.old) }
{
    let terms = setting.terms;
    let head = terms.head;
    let mut progress = start;
    // Kept: no plainer as a `for`: the progress, not a count of turns, says which instruction is next, and a failure ends it.
    while goes_on(head.count, progress) {
        let i = head.instructions[progress.ran as usize];
        if !ready(head.length, i, k) {
            return progress;
        }
        progress = taking::step(
            setting, diskroots, disk, input, i, progress, stageroots, stage, output
        );
    }
    progress
}
