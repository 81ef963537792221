// Which sizes of sectors there are.
ghost use Rattle.std.specs.Prelude.{◌≡◌};
ghost use Rattle.host.specs.Sizes.{is_size};

use crate::Host;

// Whether z is the size of a sector: any power of two from 4,096 to 4,194,304.
pub fn is_size(z: u64) -> bool
    ensures { result ≡ is_size z }
{
    z.is_power_of_two() && (Host::LEAST..=Host::MOST).contains(&z)
}
