// What checks 40, 41 and 42 count: stage slots, the new size, and the record's length.
ghost use Rattle.std.specs.Prelude.{◌≡◌, true, ◌≤◌, get_or, ltb, eqb};
ghost use Rattle.lists.specs.Pick.{pick};
ghost use Rattle.lists.specs.Tests.{count, unused};
ghost use Rattle.area.specs.Slots.{Size};
ghost use Rattle.sia.specs.declared.Op.TheVariants.{Swap, Truncate};
ghost use Rattle.host.specs.Empty.{none};
ghost use Rattle.machine_rules.specs.Plan.{new_size, proof_count, output_count};
ghost use Rattle.machine_rules.specs.Plan as Says;
ghost use Rattle.machine_sight.specs.Seen.{Ranged};

use host::Progress;
use machine_inputs::kind;
use machine_rules::Args;
use sia::Op;

// How many stage slots no position has.
fn free_copies(copies: u64, staged: [u8; 64]) -> u64
    ensures { result ≡ count (unused staged) 0 copies }
{
    let mut free: u64 = 0;
    for i in 0..copies {
        if !host::staged_in(staged, i) {
            free += 1;
        }
    }
    free
}

// How many stage slots a position needs: one, unless it has one.
fn lacks(staged: [u8; 64], at: u64) -> u64
    ensures { (result ≡ pick (eqb (get_or staged at none) none) 1 0) × (result ≤ 1) }
{
    if 64 <= at || staged[at as usize] == Progress::NONE {
        1
    } else {
        0
    }
}

// Of Swap: offset 2's position first.
fn wanted_swap(z: u64, p: Progress, args: Args) -> u64
    requires { Size z }
    ensures { result ≡ Says.wanted z p Swap args }
{
    let one = args.first / z;
    let two = args.second / z;
    if one == two {
        lacks(p.staged, two)
    } else {
        lacks(p.staged, two) + lacks(p.staged, one)
    }
}

// Of Truncate: the position that growth adds.
fn wanted_size(z: u64, p: Progress, args: Args) -> u64
    requires { Size z }
    ensures { result ≡ Says.wanted z p Truncate args }
{
    if p.size < args.first {
        lacks(p.staged, p.size / z)
    } else {
        0
    }
}

// 40: how many stage slots an instruction needs.
fn wanted(z: u64, p: Progress, op: Op, args: Args) -> u64
    requires { Size z }
    ensures { result ≡ Says.wanted z p op args }
{
    // Kept: no plainer as a table of closures: these are the definition's cases, and the arms take other arguments.
    match op {
        Op::Read | Op::ReadSector | Op::Unknown => 0,
        Op::Write | Op::Copy => lacks(p.staged, args.first / z),
        Op::Swap => wanted_swap(z, p, args),
        Op::Truncate => wanted_size(z, p, args),
    }
}

// 40: whether an instruction needs more stage slots than are free. For one that needs none they are not counted.
pub fn too_few(z: u64, copies: u64, p: Progress, op: Op, args: Args) -> bool
    requires { Size z }
    ensures { result ≡ ltb (count (unused p.staged) 0 copies) (Says.wanted z p op args) }
{
    let want = wanted(z, p, op, args);
    want != 0 && free_copies(copies, p.staged) < want
}

// 41: the parent's size after the instruction.
pub fn new_size(size: u64, op: Op, args: Args) -> u64
    ensures { result ≡ new_size size op args }
{
    match op {
        Op::Truncate => args.first,
        Op::Read | Op::ReadSector | Op::Write | Op::Copy | Op::Swap | Op::Unknown => size,
    }
}

// How many hashes a range of segments is proved by, 0 where no proof is asked.
pub fn proof_count(z: u64, asked: bool, seen: u64, args: Args) -> u64
    requires size { Size z }
    requires seen_bound { seen ≤ 64 }
    requires ranged { asked ≡ true → Ranged z seen args.first args.len }
    ensures { result ≡ proof_count z asked seen args }
{
    if !asked {
        return 0;
    }
    machine_sight::range_count(
        z as usize,
        seen as usize,
        args.first as usize,
        args.len as usize,
    ) as u64
}

// How many bytes are handed out.
pub fn output_count(op: Op, args: Args) -> u64
    ensures { result ≡ output_count op args }
{
    if kind(op).reads { args.len } else { 0 }
}
