// The root of a sector, as it is kept and worked out from the bytes, and how many hashes a range of segments is proved by.
ghost use Rattle.std.specs.Prelude.{◌≡◌, true, ◌+◌, ◌*◌, ◌/◌, ◌≤◌, length};
ghost use Rattle.area.specs.Slots.{Size};
ghost use Rattle.tree.specs.Walk.{count};
ghost use Rattle.machine_rules.specs.Roots.{sector_root, kept_root, segments};
ghost use Rattle.machine_sight.specs.Seen.{lies, Ranged};

use crate::{Seen, sectors};
use machine_rules::Spot;

// The root kept beside a slot: slot n of disk or stage has its root at 32 * n.
// Kept: two slices as two parameters, here and above: of a struct of slices each `ensures` names one as `x.entry.disk.now`, which is no plainer.
pub fn kept_root<'a>(diskroots: &'a [u8], stageroots: &'a [u8], spot: Spot) -> &'a [u8]
    requires { lies 32 diskroots.now stageroots.now spot ≡ true }
    ensures { (result.now ≡ kept_root diskroots.now stageroots.now spot) × (length result.now ≡ 32) }
{
    sectors::sector(32, diskroots, stageroots, spot)
}

// The root of a sector, worked out from its bytes.
pub fn sector_root<'a>(z: usize, disk: &'a [u8], stage: &'a [u8], spot: Spot) -> [u8; 32]
    requires size { Size z }
    requires spot_value { lies z disk.now stage.now spot ≡ true }
    ensures { result ≡ sector_root z disk.now stage.now spot }
{
    tree::root(sectors::sector(z, disk, stage, spot)).unwrap()
}

// How many hashes prove the n bytes from `at` on, of so many sectors.
pub fn range_count(z: usize, sectors: usize, at: usize, n: usize) -> usize
    requires size { Size z }
    requires sectors_bound { sectors ≤ 64 }
    requires ranged { Ranged z sectors at n }
    ensures { result ≡ count (segments z sectors) (at / 64) ((at + n) / 64) }
{
    let segments = sectors * (z / Seen::SEGMENT);
    tree::count(segments, at / Seen::SEGMENT, (at + n) / Seen::SEGMENT).unwrap()
}
