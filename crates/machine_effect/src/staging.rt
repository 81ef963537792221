// What effects look at and change: the ground, which is only read, and the stage. And what effects share: copies, and where a byte lies.
// These are inner functions: what they require, their callers prove.
ghost use Rattle.std.specs.Prelude.{◌≡◌, ◌/◌, ◌<◌};
ghost use Rattle.area.specs.Slots.{Size};
ghost use Rattle.machine_rules.specs.Effect as Says;
ghost use Rattle.machine_effect.specs.Parts.{told_ground, told_staging, place_of};
ghost use Rattle.machine_effect.specs.Asks.{bare, Lent, Room};

use host::Progress;

// Kept: `Clone` and `Copy` alone: nothing compares or prints it.

// The bytes of a sector, the sectors of the stage, the disk slots of the parent's positions, and the disk's bytes.
#[derive(Clone, Copy)]
pub struct Ground<'a> {
    pub sector: usize,
    pub copies: u64,
    pub slots: [u8; 64],
    pub disk: &'a [u8],
}

// The stage slots of the parent's positions, NONE of a position that has no copy; and the stage's bytes, changed where they lie.
#[derive(Drop)]
pub struct Staging<'a> {
    pub staged: [u8; 64],
    pub bytes: &'a mut [u8],
}

impl<'a> Staging<'a> {
    // Whether a position has no copy.
    pub fn is_bare(&self, at: usize) -> bool
        requires { at < 64 }
        ensures { result ≡ bare at (told_staging self.now) }
    {
        self.staged[at] == Progress::NONE
    }

    // A copy of position `at`, unless it has one: the disk's sector in the lowest free slot.
    pub fn copy_in(&mut self, ground: &Ground, at: usize)
        requires lent { Lent ground.now.sector (told_ground ground.now) (told_staging self.old) }
        requires room { Room ground.now.sector (told_ground ground.now) (told_staging self.old) at }
        ensures copied { told_staging self.new ≡
            Says.copied ground.now.sector (told_ground ground.now) at (told_staging self.old) }
        ensures same_bytes { self.new.bytes.ghost_name ≡ self.old.bytes.ghost_name }
    {
        if self.is_bare(at) {
            let z = ground.sector;
            let slot = host::free_copy(ground.copies, self.staged);
            area::copy_between(
                ground.disk,
                ground.slots[at] as usize * z,
                self.bytes,
                slot as usize * z,
                z,
            );
            self.staged[at] = slot as u8;
        }
    }
}

// Where byte `at` lies in an area, by the slots of the positions.
pub fn place(z: usize, slots: [u8; 64], at: usize) -> usize
    requires size { Size z }
    requires z_bound { at / z < 64 }
    ensures { result ≡ place_of z slots at }
{
    slots[at / z] as usize * z + at % z
}
