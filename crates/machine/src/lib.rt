// The machine: the calls of document 01 on a host with its areas. Making a host, forming a contract and dropping one; opening a program, giving it
// pieces, interrupting it, what it has reached, closing it; whether a host is sound, and where the sector with a root is. No call requires
// anything: what it answers and leaves is the definition of the same name in `machine_rules` (`host` for the first three).
// Rests on `host_order` (whether a host is in order), `sia_read` (heads) and `machine_step` (instructions in turn). What a call's types need is passed on
// too, so that a user names this crate alone.
#![tactic(auto)]

mod answers; // answers.rt: what a call hands out where it is done
mod closing; // closing.rt: giving up, or agreeing to what a program has reached
mod commit; // commit.rt: the slots and bytes of a commit
mod interrupting; // interrupting.rt: interrupting a program
mod locating; // locating.rt: where the sector with a root is
mod opening; // opening.rt: opening a program
mod piecing; // piecing.rt: giving a program a piece
mod reaching; // reaching.rt: what a program has reached
mod refusing; // refusing.rt: why a call on the open program is refused
mod sounding; // sounding.rt: whether a host is sound

pub use answers::{Closing, Done, End, Location};
pub use closing::close;
pub use host::{Host, Place, Prices, Program, Progress, Refusal, Terms};
pub use host_contracts::{drop, form, form_in, fresh, unmade};
pub use interrupting::interrupt;
pub use locating::locate;
pub use machine_rules::Pair;
pub use machine_step::going;
pub use opening::open;
pub use piecing::piece;
pub use reaching::reached;
pub use sounding::sound;
