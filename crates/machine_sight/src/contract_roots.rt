// Roots and proofs of what is seen, from the roots kept beside its sectors. Only the sector that a range is in is hashed, for its proof.
// These are inner functions: what they require, their callers prove.
ghost use Rattle.std.specs.Prelude.{◌≡◌, ◌*◌, ◌≤◌, ◌<◌, length, take};
ghost use Rattle.area.specs.Area.{put};
ghost use Rattle.sia.specs.Encode.{joined};
ghost use Rattle.machine_rules.specs.View.{spot_of};
ghost use Rattle.machine_rules.specs.Roots.{kept_root, contract_root, range_proof};
ghost use Rattle.machine_sight.specs.Seen.{spots_of, Lies, Known, Ranged};

use crate::{Seen, sector_roots, sectors};

// The roots kept beside the sectors that are seen, one after another.
fn kept_roots<'a>(diskroots: &'a [u8], stageroots: &'a [u8], seen: Seen) -> [u8; 2048]
    requires { Known diskroots.now stageroots.now seen }
    ensures { take (32 * seen.count) result ≡ joined (kept_root diskroots.now stageroots.now) (spots_of seen) }
{
    let mut roots = [0u8; 2048];
    for i in 0..seen.count {
        let spot = seen.spot(i);
        let root = sector_roots::kept_root(diskroots, stageroots, spot);
        area::copy_between(root, 0, &mut roots, 32 * i, 32);
    }
    roots
}

// The root kept beside the first sector that is seen.
fn first_root<'a>(diskroots: &'a [u8], stageroots: &'a [u8], seen: Seen) -> [u8; 32]
    requires known { Known diskroots.now stageroots.now seen }
    requires count_nonzero { 0 < seen.count }
    ensures { result ≡ kept_root diskroots.now stageroots.now (spot_of seen.slots seen.staged 0) }
{
    let mut root = [0u8; 32];
    root.copy_from_slice(sector_roots::kept_root(diskroots, stageroots, seen.spot(0)));
    root
}

// The root of all that is seen; of nothing it is 32 zero bytes, and one sector's is its own.
pub fn contract_root<'a>(diskroots: &'a [u8], stageroots: &'a [u8], seen: Seen) -> [u8; 32]
    requires { Known diskroots.now stageroots.now seen }
    ensures { result ≡ contract_root (kept_root diskroots.now stageroots.now) (spots_of seen) }
{
    match seen.count {
        0 => [0u8; 32],
        1 => first_root(diskroots, stageroots, seen),
        count => {
            let roots = kept_roots(diskroots, stageroots, seen);
            tree::join(&roots[..32 * count]).unwrap()
        }
    }
}

// The proof of the n bytes from `at` on, which lie in one sector, laid over the front of out. Of one sector no root is needed.
pub fn range_proof<'a>(
    z: usize,
    diskroots: &'a [u8],
    stageroots: &'a [u8],
    disk: &'a [u8],
    stage: &'a [u8],
    seen: Seen,
    at: usize,
    n: usize,
    out: &mut [u8],
)
    requires known { Known diskroots.now stageroots.now seen }
    requires lies { Lies z disk.now stage.now seen }
    requires ranged { Ranged z seen.count at n }
    requires n_in_bounds { length (range_proof z (kept_root diskroots.now stageroots.now) disk.now stage.now (spots_of seen) at n)
        ≤ length out.old }
    ensures { out.new ≡
        put out.old 0 (range_proof z (kept_root diskroots.now stageroots.now)
        disk.now stage.now (spots_of seen) at n) }
{
    let place = at / z;
    let bytes = sectors::sector(z, disk, stage, seen.spot(place));
    let first = at % z / Seen::SEGMENT;
    let end = first + n / Seen::SEGMENT;
    if seen.count == 1 {
        tree::prove(bytes, first, end, out).unwrap();
        return;
    }
    let roots = kept_roots(diskroots, stageroots, seen);
    tree::prove_in(&roots[..32 * seen.count], place, bytes, first, end, out).unwrap();
}
