// Truncate: what a change of size does to the stage.
// These are inner functions: what they require, their callers prove.
ghost use Rattle.std.specs.Prelude.{◌≡◌, ◌<◌};
ghost use Rattle.machine_rules.specs.Effect as Says;
ghost use Rattle.machine_effect.specs.Parts.{told_ground, told_staging, grown};
ghost use Rattle.machine_effect.specs.Asks.{Lent, Free, Sized};

use crate::staging::{Ground, Staging};
use host::Progress;

// Position `at` in the lowest free slot, with zeros.
fn new_zeros(ground: &Ground, staging: &mut Staging, at: usize)
    requires lent { Lent ground.now.sector (told_ground ground.now) (told_staging staging.old) }
    requires free { Free (told_ground ground.now) (told_staging staging.old) }
    requires at_bound { at < 64 }
    ensures grown { told_staging staging.new ≡
        grown ground.now.sector (told_ground ground.now) at (told_staging staging.old) }
    ensures same_bytes { staging.new.bytes.ghost_name ≡ staging.old.bytes.ghost_name }
{
    let z = ground.sector;
    let slot = host::free_copy(ground.copies, staging.staged);
    area::fill(staging.bytes, slot as usize * z, z, 0);
    staging.staged[at] = slot as u8;
}

// A sector of zeros is added, or the last one is dropped and its slot is free again.
pub fn resized(ground: &Ground, staging: &mut Staging, size: usize, new: usize)
    requires lent { Lent ground.now.sector (told_ground ground.now) (told_staging staging.old) }
    requires sized { Sized ground.now.sector (told_ground ground.now) (told_staging staging.old) size new }
    ensures resized { told_staging staging.new ≡
        Says.resized ground.now.sector (told_ground ground.now) size new (told_staging staging.old) }
    ensures same_bytes { staging.new.bytes.ghost_name ≡ staging.old.bytes.ghost_name }
{
    let z = ground.sector;
    if size < new {
        new_zeros(ground, staging, size / z);
    } else if new < size {
        staging.staged[new / z] = Progress::NONE;
    }
}
