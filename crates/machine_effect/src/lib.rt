// What an instruction that can run does to the stage, and the roots kept beside the stage's slots after it. The disk is only read.
// Rests on `area` for spans, on `host` for free slots and on `tree` for roots. Whether an instruction can run was judged before: inner functions,
// what they require their callers prove.
#![tactic(auto)]

ghost use Rattle.std.specs.Prelude.{◌≡◌, ◌+◌, ◌≤◌, length};
ghost use Rattle.area.specs.Area.{part};
ghost use Rattle.machine_rules.specs.Effect as Says;
ghost use Rattle.sia.specs.declared.Op.TheVariants.{Write};
ghost use Rattle.machine_effect.specs.Parts.{staging, told_ground, told_staging};
ghost use Rattle.machine_effect.specs.Asks.{Stands};

mod rehashing; // rehashing.rt: the roots kept after an instruction
mod resizing; // resizing.rt: Truncate
mod spans; // spans.rt: Write, Copy and Swap
mod staging; // staging.rt: what effects look at, change and share

use machine_rules::Args;
pub use rehashing::rehash;
use sia::Op;
pub use staging::Ground;
use staging::Staging;

// What an instruction does; Write's data lie in the input from `from` on. `staged[p]` is the stage slot of position p, or NONE: it is handed in
// and handed back, while the stage's bytes are changed where they lie.
// Kept: the slots and the stage's bytes apart, here and in `rehash`: tried as one `Staging`, the proof of machine_step's `succeed` did not close.
pub fn effect(
    ground: &Ground,
    op: Op,
    staged: [u8; 64],
    stage: &mut [u8],
    size: usize,
    args: Args,
    input: &[u8],
    from: usize,
) -> [u8; 64]
    requires stands { Stands ground.now.sector (told_ground ground.now) size op args (staging staged stage.old) }
    requires len_in_bounds { op ≡ Write → from + args.len ≤ length input.now }
    ensures { staging result stage.new ≡
        Says.effect ground.now.sector (told_ground ground.now) size op args (part input.now from args.len)
        (staging staged stage.old) }
{
    let mut staging = Staging {
        staged,
        bytes: stage,
    };
    act(ground, op, &mut staging, size, args, input, from);
    staging.staged
}

// The same, of the stage as one value.
fn act(
    ground: &Ground,
    op: Op,
    staging: &mut Staging,
    size: usize,
    args: Args,
    input: &[u8],
    from: usize,
)
    requires stands { Stands ground.now.sector (told_ground ground.now) size op args (told_staging staging.old) }
    requires len_in_bounds { op ≡ Write → from + args.len ≤ length input.now }
    ensures effect { told_staging staging.new ≡
        Says.effect ground.now.sector (told_ground ground.now) size op args (part input.now from args.len)
        (told_staging staging.old) }
    ensures same_bytes { staging.new.bytes.ghost_name ≡ staging.old.bytes.ghost_name }
{
    let first = args.first as usize;
    let second = args.second as usize;
    let len = args.len as usize;
    // Kept: no plainer as a table of closures: these are the definition's cases, and the arms take other arguments.
    match op {
        Op::Read | Op::ReadSector | Op::Unknown => {}
        Op::Write => spans::write(ground, staging, first, &input[from..from + len]),
        Op::Copy => spans::copy(ground, staging, first, second, len),
        Op::Swap => spans::swap(ground, staging, first, second, len),
        Op::Truncate => resizing::resized(ground, staging, size, first),
    }
}
