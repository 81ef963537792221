// An instruction's inputs: whether it is well-formed, how many bytes it needs, and what the bytes that it names say (checks 21 to 23).
// Rests on `sia` for instructions and on the definitions of `machine_rules`. Inner functions: what they require, their callers prove.
#![tactic(auto)]

ghost use Rattle.std.specs.Prelude.{◌≡◌};
ghost use Rattle.machine_inputs.specs.Given.{no_args};

mod decoding; // decoding.rt: what the inputs say, and check 23
mod kinds; // kinds.rt: what kinds of instructions differ in
mod operands; // operands.rt: checks 21 and 22, and the need
mod sums; // sums.rt: a sum against a limit

pub use decoding::decoded;
pub use kinds::{kind, reads};
use machine_rules::Args;
pub use operands::{ill_formed, need, past_end};
pub use sums::above;

// No arguments.
pub fn no_args() -> Args
    ensures { result ≡ no_args }
{
    Args {
        key: [0u8; 32],
        first: 0,
        second: 0,
        len: 0,
    }
}

// What the decoder tells: the arguments, and where Write's data begin in the input area, 0 for all others.
#[derive(Clone, Copy, Debug, PartialEq, Eq)]
pub struct Given {
    pub args: Args,
    pub from: u64,
}
