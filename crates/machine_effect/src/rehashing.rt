// The roots kept beside the stage's slots after an instruction: beside the slot of each position that it wrote to, the root of the sector's
// bytes now. `staged[p]` is the stage slot of position p after the instruction, or NONE; the root of slot n is the 32 bytes from 32 * n on.
// A sector that growth added is zeros, and its root is made by doubling: one leaf, and one node a level. No other slot's root is touched.
// These are inner functions: what they require, their callers prove.
ghost use Rattle.std.specs.Prelude.{◌≡◌, [], ◌∷◌, ◌/◌, ◌*◌, ◌<◌, get_or, ltb, eqb};
ghost use Rattle.lists.specs.Pick.{pick};
ghost use Rattle.area.specs.Area.{put, zeros};
ghost use Rattle.area.specs.Slots.{Size};
ghost use Rattle.tree.specs.Tree.{root};
ghost use Rattle.host.specs.Empty.{none};
ghost use Rattle.machine_rules.specs.Plan.{touched};
ghost use Rattle.machine_rules.specs.Effect.{rehashed};
ghost use Rattle.machine_effect.specs.Parts.{staging};
ghost use Rattle.machine_effect.specs.Rehashes.{Near, Beside, Rehashes};

use machine_rules::Args;
use sia::Op;

// Position `at`: the root of its sector's bytes.
fn rehash_one(z: usize, staged: [u8; 64], stage: &[u8], at: usize, stageroots: &mut [u8])
    requires size { Size z }
    requires beside { Beside z (staging staged stage.now) stageroots.old at }
    ensures { stageroots.new ≡ rehashed z (staging staged stage.now) (at ∷ []) stageroots.old }
{
    let slot = staged[at] as usize;
    let from = slot * z;
    let root = tree::root(&stage[from..from + z]).unwrap();
    area::copy_between(&root, 0, stageroots, slot * 32, 32);
}

// The positions of Swap: one sector is hashed once.
fn rehash_two(
    z: usize,
    staged: [u8; 64],
    stage: &[u8],
    one: usize,
    two: usize,
    stageroots: &mut [u8],
)
    requires size { Size z }
    requires beside { Beside z (staging staged stage.now) stageroots.old one }
    requires beside_2 { Beside z (staging staged stage.now) stageroots.old two }
    ensures { stageroots.new ≡
        rehashed z (staging staged stage.now) (pick (eqb one two) (two ∷ []) (two ∷ one ∷ [])) stageroots.old }
{
    rehash_one(z, staged, stage, one, stageroots);
    if one != two {
        rehash_one(z, staged, stage, two, stageroots);
    }
}

// The position that growth adds: the root of zeros. A size that does not grow adds none.
fn rehash_new(z: usize, staged: [u8; 64], size: usize, new: usize, stageroots: &mut [u8])
    requires size { Size z }
    requires near { size < new → Near staged stageroots.old (size / z) }
    ensures { stageroots.new ≡ pick (ltb size new)
        (put stageroots.old (get_or staged (size / z) none * 32) (root (zeros z))) stageroots.old }
{
    if size < new {
        let slot = staged[size / z] as usize;
        let zeros = tree::doubling::zeros_root(z);
        area::copy_between(&zeros, 0, stageroots, slot * 32, 32);
    }
}

// What an instruction leaves; `size` is the size before it.
pub fn rehash(
    z: usize,
    op: Op,
    staged: [u8; 64],
    stage: &[u8],
    size: usize,
    args: Args,
    stageroots: &mut [u8],
)
    requires { Rehashes z size op args (staging staged stage.now) stageroots.old }
    ensures { stageroots.new ≡
        rehashed z (staging staged stage.now) (touched z size op args) stageroots.old }
{
    let first = args.first as usize;
    let second = args.second as usize;
    // Kept: no plainer as a table of closures: these are the definition's cases, and the arms take other arguments.
    match op {
        Op::Read | Op::ReadSector | Op::Unknown => {}
        Op::Write | Op::Copy => rehash_one(z, staged, stage, first / z, stageroots),
        Op::Swap => rehash_two(z, staged, stage, first / z, second / z, stageroots),
        Op::Truncate => rehash_new(z, staged, size, first, stageroots),
    }
}
