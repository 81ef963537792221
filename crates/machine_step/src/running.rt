// An instruction that can run: its effect, the roots of the sectors that it wrote, and its record with the size and root after it.
ghost use Rattle.std.specs.Prelude.{◌≡◌, ◌+◌, ◌^◌, ◌<◌};
ghost use Rattle.machine_rules.specs.View.{volume, turn};
ghost use Rattle.machine_rules.specs.Failure.{plan_made};
ghost use Rattle.machine_rules.specs.Run.{ran_progress};
ghost use Rattle.machine_step.specs.Asks.{Tasked, stepped_turn};

use crate::records::Shown;
use crate::{records, roots, settings};
use host::Progress;
use machine_effect::Ground;
use machine_plan::Task;
use machine_rules::{Plan, Setting};
use sia::Instruction;

// The progress after it.
fn advanced(progress: Progress, plan: Plan, staged: [u8; 64]) -> Progress
    requires ran_bound { progress.ran + 1 < 2 ^ 64 }
    requires cost_bound { progress.tally + plan.cost < 2 ^ 64 }
    requires count_bound { progress.written + plan.count < 2 ^ 64 }
    ensures { result ≡ ran_progress progress (plan_made plan) staged }
{
    Progress {
        ran: progress.ran + 1,
        tally: progress.tally + plan.cost,
        written: progress.written + plan.count,
        size: plan.size,
        staged,
        ..progress
    }
}

// What an instruction with such a task leaves.
#[rattlefmt::skip]
pub fn succeed<'a>(
    setting: Setting,
    diskroots: &'a [u8],
    disk: &'a [u8],
    input: &[u8],
    i: Instruction,
    task: Task,
    progress: Progress,
    stageroots: &mut [u8],
    stage: &mut [u8],
    output: &mut [u8],
) -> Progress
    requires { Tasked setting (volume disk.now diskroots.now) (turn progress stage.old output.old stageroots.old) input.now i task }
    ensures { turn result stage.new output.new stageroots.new ≡
        stepped_turn setting (volume disk.now diskroots.now) i input.now
        (turn progress stage.old output.old stageroots.old) }
{
    let sector = setting.sector as usize;
    let plan = task.plan;
    let op = task.op;
    let args = task.args;
    let size = progress.size as usize;
    let parent = settings::parent(setting);
    let slots = parent.slots;
    let ground = Ground { sector, copies: setting.stagesectors, slots, disk };
    let staged = machine_effect::effect(
        &ground, op, progress.staged, stage, size, args, input, task.from as usize
    );
    machine_effect::rehash(sector, op, staged, &*stage, size, args, stageroots);
    let after = advanced(progress, plan, staged);
    let root = roots::running_root(setting.sector, diskroots, &*stageroots, parent, after);
    let at = progress.written as usize;
    let reads = machine_inputs::reads(op);
    let shown = Shown {
        sector, asked: i.proof, reads, diskroots, stageroots: &*stageroots, disk, stage: &*stage, seen: task.seen,
        at: args.first as usize, n: args.len as usize,
    };
    records::put_success(plan.cost, plan.size, root, plan.hashes, &shown, &mut output[at..]);
    after
}
