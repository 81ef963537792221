// The refusal of a call on the open program, for the calls that ask for one: pieces, interrupts, what it has reached, closing.
ghost use Rattle.std.specs.Prelude.{◌≡◌, not};
ghost use Rattle.lists.specs.Pick.{pick};
ghost use Rattle.host.specs.Refusals.{told};

use host::Refusal;

// Why a call on the open program is refused, if it is: 1, 2, 4. It is told whether the host is in order, whether what the call lends is as long
// as stated, and whether a program is open: with the host itself, a call would copy it once more.
pub fn refusal(ordered: bool, lent: bool, active: bool) -> Result<(), Refusal>
    ensures { told result ≡ pick (not ordered) 1 (pick (not lent) 2 (pick (not active) 4 0)) }
{
    if !ordered {
        return Err(Refusal::NotInOrder);
    }
    if !lent {
        return Err(Refusal::WrongLength);
    }
    if !active {
        return Err(Refusal::NoneOpen);
    }
    Ok(())
}
