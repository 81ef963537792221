// The limits of a head.
ghost use Rattle.std.specs.Prelude.{◌≡◌};
ghost use Rattle.sia.specs.Encode as Says;

use crate::{Head, Instruction};

// Whether a head is within its limits; the operands of instructions past the count do not matter.
pub fn within(head: Head) -> bool
    ensures { result ≡ Says.within head }
{
    if Head::INSTRUCTIONS < head.count {
        return false;
    }
    let used = &head.instructions[..head.count as usize];
    head.length <= Head::LENGTH && used.iter().all(|x| x.count <= Instruction::OPERANDS)
}
