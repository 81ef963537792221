// Whether areas are as long as stated, by a host that need not be in order: a product that would wrap is the length of no area.
ghost use Rattle.std.specs.Prelude.{◌≡◌, ◌*◌, length, eqb};
ghost use Rattle.lists.specs.Pick.{both};

// Whether an area is so many sectors of z bytes.
pub fn lent(z: u64, sectors: u64, area: &[u8]) -> bool
    ensures { result ≡ eqb (length area.now) (sectors * z) }
{
    let n = area.len() as u64;
    sectors.checked_mul(z) == Some(n)
}

// Whether disk and stage are.
pub fn areas_right(z: u64, sectors: u64, copies: u64, disk: &[u8], stage: &[u8]) -> bool
    ensures { result ≡ both (eqb (length disk.now) (sectors * z)) (eqb (length stage.now) (copies * z)) }
{
    lent(z, sectors, disk) && lent(z, copies, stage)
}
