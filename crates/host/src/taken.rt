// The slots that contracts take, and the lowest free slot of the stage.
ghost use Rattle.std.specs.Prelude.{◌≡◌, ◌/◌, ◌≤◌, ◌<◌, min, length, ltb, eqb};
ghost use Rattle.lists.specs.Tests.{every, some, apart};
ghost use Rattle.host.specs.Places.{committed, taken, free_copy};
ghost use Rattle.host.specs.Listed.{listed};

use crate::{Place, Slots, apart};

// The sectors of a size, at most as many as a place has slots.
// Kept: 0 < z as a clause, here and in `host_order`: the size is a number of a record, so each call would make its `NonZeroU64` anew.
pub fn sectors(z: u64, size: u64) -> usize
    requires { 0 < z }
    ensures { (result ≡ min (size / z) 64) × (result ≤ 64) }
{
    (size / z).min(Place::SLOTS) as usize
}

// The slots of the committed positions of a place.
fn committed(z: u64, p: &Place) -> &[u8]
    requires { 0 < z }
    ensures { (result.now ≡ committed z p.now) × (length result.now ≤ 64) }
{
    let held = if p.held { sectors(z, p.size) } else { 0 };
    &p.slots[..held]
}

// The slots of all committed positions, place by place.
pub fn slots_taken(z: u64, places: [Place; 8]) -> Slots
    requires { 0 < z }
    ensures { (listed result ≡ taken z places) × (result.count ≤ 512) }
{
    let mut taken = Slots::new();
    for p in &places {
        taken.extend(committed(z, p));
    }
    taken
}

// Whether no two slots are equal.
pub fn distinct(slots: &[u8]) -> bool
    ensures { result ≡ apart eqb slots.now }
{
    apart(slots, |m, n| m == n)
}

// Whether each slot is below a limit.
pub fn below(slots: &[u8], limit: u64) -> bool
    ensures { result ≡ every (λ n. ltb n limit) slots.now }
{
    slots.iter().all(|n| u64::from(*n) < limit)
}

// Whether a position is staged in slot x.
pub fn staged_in(staged: [u8; 64], x: u64) -> bool
    ensures { result ≡ some (eqb x) staged }
{
    staged.iter().any(|n| x == u64::from(*n))
}

// The lowest stage slot that no staged position has; the number of sectors where there is none.
pub fn free_copy(stage: u64, staged: [u8; 64]) -> u64
    ensures { result ≡ free_copy stage staged }
{
    (0..stage).find(|i| !staged_in(staged, *i)).unwrap_or(stage)
}
