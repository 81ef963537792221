// Whether the staged positions of a program are in order: `staged[p]` is the stage slot of position p, or 255.
ghost use Rattle.std.specs.Prelude.{◌≡◌, not, ◌/◌, ◌≤◌, ◌<◌, take, drop, eqb};
ghost use Rattle.lists.specs.Tests.{every, apart};
ghost use Rattle.host.specs.Empty.{none};
ghost use Rattle.host.specs.Order.{slot_in_order, clash, staged_in_order};

use host::Progress;

// Whether an entry is none, or a slot of the stage.
fn slot_in_order(x: u8, stage: u64) -> bool
    ensures { result ≡ slot_in_order stage x }
{
    x == Progress::NONE || u64::from(x) < stage
}

fn slots_in_order(staged: &[u8], stage: u64) -> bool
    ensures { result ≡ every (slot_in_order stage) staged.now }
{
    staged.iter().all(|n| slot_in_order(*n, stage))
}

// Whether two positions are staged in one slot.
fn clashes(x: u8, y: u8) -> bool
    ensures { result ≡ clash x y }
{
    x != Progress::NONE && y != Progress::NONE && x == y
}

// A position that is not staged clashes with none.
fn no_clash(staged: &[u8]) -> bool
    ensures { result ≡ apart clash staged.now }
{
    host::apart_but(staged, |n| *n == Progress::NONE, |m, n| clashes(*m, *n))
}

fn none_staged(staged: &[u8]) -> bool
    ensures { result ≡ every (λ n. eqb n none) staged.now }
{
    staged.iter().all(|n| *n == Progress::NONE)
}

fn all_staged(staged: &[u8]) -> bool
    ensures { result ≡ every (λ n. not (eqb n none)) staged.now }
{
    staged.iter().all(|n| *n != Progress::NONE)
}

// Whether the staged positions are in order; `start` in sectors, `size` in bytes. None is staged behind the size, and each from the start to it.
pub fn staged_in_order(z: u64, stage: u64, start: u64, size: u64, staged: [u8; 64]) -> bool
    requires { 0 < z }
    ensures { result ≡ staged_in_order stage start (size / z) staged }
{
    let end = host::sectors(z, size);
    let past = end.min(start as usize);
    slots_in_order(&staged, stage)
        && no_clash(&staged)
        && none_staged(&staged[end..])
        && all_staged(&staged[past..end])
}
