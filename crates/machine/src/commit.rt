// The slots and bytes of a commit: which slots the parent has at its final size, and its staged sectors copied there. `slots[p]` is
// the disk slot of position p, `staged[p]` its stage slot or NONE. What is copied is what slots of z bytes hold: the sectors, z their size, and
// the roots kept beside them, z 32.
// These are inner functions: what they require, their callers prove.
ghost use Rattle.std.specs.Prelude.{◌≡◌, ◌-◌, ◌/◌, ◌≤◌, true, not, length, take, set, position, pos, ◌-ℤ◌};
ghost use Rattle.area.specs.Area.{put};
ghost use Rattle.area.specs.Slots.{Size};
ghost use Rattle.host.specs.With.{with_size, with_slots};
ghost use Rattle.host.specs.Places.{committed};
ghost use Rattle.machine_rules.specs.Commit as Says;
ghost use Rattle.machine_rules.specs.Commit.{final_slots, copied_back};
ghost use Rattle.machine.specs.Marks.{marks_of, new_from, filled};
ghost use Rattle.machine.specs.Back.{laid, Lies, Back};

use host::{Place, Progress};

// A mark for a slot; one that has no entry is passed by.
fn mark(taken: &mut [bool; 64], slot: usize)
    ensures { taken.new ≡ set taken.old slot true }
{
    // Kept: tried `get_mut`, and the proof did not close: it learns nothing of the element that is written.
    if slot < taken.len() {
        taken[slot] = true;
    }
}

// The marks of the slots that are listed.
fn marked(slots: &[u8]) -> [bool; 64]
    ensures { result ≡ marks_of slots.now }
{
    let mut taken = [false; 64];
    for &slot in slots {
        mark(&mut taken, usize::from(slot));
    }
    taken
}

// The lowest slot that has no mark.
fn lowest_free(taken: &[bool]) -> Option<usize>
    ensures { result ≡ position not taken.now }
{
    taken.iter().position(|&mark| !mark)
}

// Kept: slots and a number of them, here and below, as a place has room for those of all positions, and its size beside: no heap.

// Positions from `from` to `end`, ascending, each in the lowest slot that has no mark, which then has one.
fn new_slots(
    disk: usize,
    mut taken: [bool; 64],
    mut slots: [u8; 64],
    from: usize,
    end: usize,
) -> [u8; 64]
    requires disk_bound { disk ≤ 64 }
    requires end_bound { end ≤ 64 }
    ensures { result ≡ put slots from (new_from disk taken (end - from)) }
{
    for at in from..end {
        let slot = lowest_free(&taken[..disk]).unwrap_or(disk);
        mark(&mut taken, slot);
        slots[at] = slot as u8;
    }
    slots
}

// A place with its positions past a size freed.
fn cut(place: Place, size: u64) -> Place
    ensures { result ≡ Says.cut size place }
{
    Place {
        size: place.size.min(size),
        ..place
    }
}

// How many positions of a place have slots.
fn count(z: u64, place: Place) -> usize
    requires { Size z }
    ensures { (result ≡ length (committed z place)) × (result ≤ 64) }
{
    if place.held {
        host::sectors(z, place.size)
    } else {
        0
    }
}

// The first n slots, and zeros behind them.
fn first(mut slots: [u8; 64], n: usize) -> [u8; 64]
    requires { n ≤ 64 }
    ensures { result ≡ filled (take n slots) }
{
    slots[n..].fill(0);
    slots
}

// The slots of a place at its final size: kept positions keep theirs, new ones, ascending, take the lowest free; zeros behind them.
pub fn final_slots(z: u64, disk: u64, places: [Place; 8], place: Place, size: u64) -> [u8; 64]
    requires size { Size z }
    requires disk_bound { disk ≤ 64 }
    requires z_bound { size / z ≤ 64 }
    ensures { result ≡ filled (final_slots z disk places place size) }
{
    let kept = cut(place, size);
    let after = host::replaced_in(places, place.id, kept);
    let all = host::slots_taken(z, after);
    let taken = marked(all.as_slice());
    let n = count(z, kept);
    let keep = first(kept.slots, n);
    new_slots(disk as usize, taken, keep, n, (size / z) as usize)
}

// What stage slot `from` holds, unless that is NONE, in disk slot `to`.
fn one_back(z: usize, stage: &[u8], from: u8, to: u8, disk: &mut [u8])
    requires { Lies z stage.now from to disk.old }
    ensures { disk.new ≡ laid z stage.now from to disk.old }
{
    if from != Progress::NONE {
        area::copy_between(stage, from as usize * z, disk, to as usize * z, z);
    }
}

// What the stage slots of the first n positions hold copied to their disk slots.
pub fn copy_back(z: u64, stage: &[u8], staged: [u8; 64], slots: [u8; 64], n: usize, disk: &mut [u8])
    requires { Back z stage.now staged slots n disk.old }
    ensures { disk.new ≡ copied_back z stage.now staged slots 0 n disk.old }
{
    for (&from, &to) in staged[..n].iter().zip(&slots[..n]) {
        one_back(z as usize, stage, from, to, disk);
    }
}

// A place with its final size and slots.
pub fn final_place(place: Place, size: u64, slots: [u8; 64]) -> Place
    ensures { result ≡ with_slots (with_size place size) slots }
{
    Place {
        size,
        slots,
        ..place
    }
}

// Final less starting size, in bytes: each at most 64 sectors of the largest size.
pub fn growth(last: u64, first: u64) -> i64
    requires last_bound { last ≤ 268435456 }
    requires first_bound { first ≤ 268435456 }
    ensures { result ≡ pos last -ℤ pos first }
{
    last as i64 - first as i64
}
