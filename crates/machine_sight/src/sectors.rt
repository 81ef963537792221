// Where a sector is, and its bytes: a part of the area that holds it, never a copy.
ghost use Rattle.std.specs.Prelude.{◌≡◌, true, ◌*◌, length};
ghost use Rattle.area.specs.Area.{part};
ghost use Rattle.machine_rules.specs.View as Says;
ghost use Rattle.machine_sight.specs.Seen.{holds, lies, span_of, Lies, Inside};

use crate::Seen;
use machine_rules::Spot;

// The bytes of slot n of an area, z of them.
fn slot<'a>(z: usize, area: &'a [u8], n: usize) -> &'a [u8]
    requires { holds z area.now n ≡ true }
    ensures { (result.now ≡ part area.now (n * z) z) × (length result.now ≡ z) }
{
    let from = n * z;
    &area[from..from + z]
}

// The bytes of a sector, z of them.
pub fn sector<'a>(z: usize, disk: &'a [u8], stage: &'a [u8], spot: Spot) -> &'a [u8]
    requires { lies z disk.now stage.now spot ≡ true }
    ensures { (result.now ≡ Says.sector z disk.now stage.now spot) × (length result.now ≡ z) }
{
    match spot {
        Spot::OnDisk(n) => slot(z, disk, n),
        Spot::InStage(n) => slot(z, stage, n),
    }
}

// The n bytes of what is seen from `at` on, which lie in one sector.
pub fn span<'a>(
    z: usize,
    disk: &'a [u8],
    stage: &'a [u8],
    seen: Seen,
    at: usize,
    n: usize,
) -> &'a [u8]
    requires lies { Lies z disk.now stage.now seen }
    requires inside { Inside z seen.count at n }
    ensures { (result.now ≡ span_of z disk.now stage.now seen at n) × (length result.now ≡ n) }
{
    let bytes = sector(z, disk, stage, seen.spot(at / z));
    let from = at % z;
    &bytes[from..from + n]
}
