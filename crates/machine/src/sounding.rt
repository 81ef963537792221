// Whether a host is sound: in order, and the root kept beside each slot in use is that of the sector's bytes. Every root is worked out
// afresh, once, and compared on all 32 bytes. What the inner functions require, their callers prove; the call requires nothing.
ghost use Rattle.std.specs.Prelude.{◌≡◌, true, [], ◌∷◌, ◌≤◌, eqb};
ghost use Rattle.lists.specs.Pick.{either};
ghost use Rattle.area.specs.Slots.{Size};
ghost use Rattle.host.specs.Empty.{none};
ghost use Rattle.host.specs.Order.{in_order};
ghost use Rattle.machine_rules.specs.View.{areas_right};
ghost use Rattle.machine_rules.specs.Sound.{right, staged_right, roots_right, sounded};
ghost use Rattle.machine_sight.specs.Seen.{holds};
ghost use Rattle.machine.specs.Asks.{sounded_of};
ghost use Rattle.machine.specs.Beside.{Beside};

use host::{Host, Progress, Refusal};
use machine_rules::Spot;

// Whether the root kept beside slot n of an area is that of the sector's bytes.
fn slot_right(z: usize, bytes: &[u8], roots: &[u8], n: usize) -> bool
    requires size { Size z }
    requires n_value { holds z bytes.now n ≡ true }
    requires n_value_2 { holds 32 roots.now n ≡ true }
    ensures { result ≡ right z bytes.now roots.now n }
{
    let root = machine_sight::sector_root(z, bytes, bytes, Spot::OnDisk(n));
    let kept = machine_sight::kept_root(roots, roots, Spot::OnDisk(n));
    area::same(kept, &root)
}

// The same of the slot of a position, or the position has none.
fn position_right(z: usize, bytes: &[u8], roots: &[u8], slot: u8) -> bool
    requires { Beside z bytes.now roots.now (slot ∷ []) }
    ensures { result ≡ either (eqb slot none) (right z bytes.now roots.now slot) }
{
    slot == Progress::NONE || slot_right(z, bytes, roots, slot as usize)
}

// Of all positions.
fn all_right(z: usize, bytes: &[u8], roots: &[u8], slots: &[u8]) -> bool
    requires { Beside z bytes.now roots.now slots.now }
    ensures { result ≡ staged_right z bytes.now roots.now slots.now }
{
    slots
        .iter()
        .all(|&slot| position_right(z, bytes, roots, slot))
}

// Each committed position of each contract, and each staged position of an open program.
fn roots_right(host: Host, disk: &[u8], stage: &[u8]) -> bool
    requires host_value { in_order host ≡ true }
    requires stage_value { areas_right host disk.now stage.now ≡ true }
    ensures { result ≡ roots_right disk.now host stage.now }
{
    let z = host.sector as usize;
    let all = host::slots_taken(host.sector, host.places);
    let program = host.program;
    all_right(z, disk, &host.diskroots, all.as_slice())
        && (!program.active || all_right(z, stage, &host.stageroots, &program.progress.staged))
}

// Whether the host is sound; or 1, 2. It changes nothing, and a program need not be open.
pub fn sound(host: Host, disk: &[u8], stage: &[u8]) -> Result<bool, Refusal>
    ensures { sounded_of result ≡ sounded disk.now host stage.now }
{
    if !host_order::in_order(host) {
        return Err(Refusal::NotInOrder);
    }
    if !host_order::areas_right(host.sector, host.disk, host.stage, disk, stage) {
        return Err(Refusal::WrongLength);
    }
    Ok(roots_right(host, disk, stage))
}
