// What is seen of the parent, of a committed contract, and one sector.
ghost use Rattle.std.specs.Prelude.{◌≡◌, true, [], ◌∷◌, ◌/◌, ◌≤◌};
ghost use Rattle.lists.specs.Tab.{tab};
ghost use Rattle.area.specs.Slots.{Size};
ghost use Rattle.host.specs.Order.{place_in_order};
ghost use Rattle.machine_rules.specs.View.{spot_of, committed_spots};
ghost use Rattle.machine_sight.specs.Seen.{spots_of};
ghost use Rattle.machine_sight.specs.Lookup.{Narrow};

use crate::Seen;
use host::{Place, Progress};
use machine_rules::Spot;

// No sector.
pub fn nothing() -> Seen
    ensures { (spots_of result ≡ []) × (result.count ≤ 1) }
{
    Seen {
        count: 0,
        slots: [0u8; 64],
        staged: [Progress::NONE; 64],
    }
}

// One sector.
pub fn one(spot: Spot) -> Seen
    requires { Narrow spot }
    ensures { spots_of result ≡ spot ∷ [] }
{
    match spot {
        Spot::OnDisk(n) => Seen {
            count: 1,
            slots: [n as u8; 64],
            staged: [Progress::NONE; 64],
        },
        Spot::InStage(n) => Seen {
            count: 1,
            slots: [0u8; 64],
            staged: [n as u8; 64],
        },
    }
}

// The parent up to a size: from the stage where it has a copy there, else from the disk.
pub fn parent_seen(z: u64, place: Place, staged: [u8; 64], size: u64) -> Seen
    requires { Size z }
    ensures { (spots_of result ≡ tab 0 (size / z) (spot_of place.slots staged)) × (result.count ≡ size / z) }
{
    let slots = place.slots;
    Seen {
        count: (size / z) as usize,
        slots,
        staged,
    }
}

// The committed sectors of a contract.
pub fn committed_seen(z: u64, place: Place) -> Seen
    requires size { Size z }
    requires place_value { place_in_order z place ≡ true }
    ensures { (spots_of result ≡ committed_spots z place) × (result.count ≤ 64) }
{
    if !place.held {
        return nothing();
    }
    parent_seen(z, place, [Progress::NONE; 64], place.size)
}
