// What the machine sees of contracts, and what it knows of it by kept roots: the bytes of a sector, in whichever area holds it, and its root, kept or
// worked out; the sectors of the parent, of a committed contract and of the contract that has a root; roots and proofs of what is seen.
// Rests on `tree` for roots and proofs, and on the definitions of `machine_rules`. Inner functions: what they require, their callers prove.
#![tactic(auto)]

ghost use Rattle.std.specs.Prelude.{◌≡◌, ◌<◌};
ghost use Rattle.machine_rules.specs.View.{spot_of};

mod contract_roots; // contract_roots.rt: roots and proofs of what is seen, from the roots kept beside its sectors
mod lookup; // lookup.rt: the sector that has a root
mod sector_roots; // sector_roots.rt: the root of a sector, kept or worked out, and the hashes of a proof
mod sectors; // sectors.rt: where a sector is, and its bytes
mod sights; // sights.rt: the parent, a committed contract, one sector

pub use contract_roots::{contract_root, range_proof};
use host::Progress;
pub use lookup::{find_for, find_in_all};
use machine_rules::Spot;
pub use sector_roots::{kept_root, range_count, sector_root};
pub use sectors::{sector, span};
pub use sights::{committed_seen, nothing, one, parent_seen};

// What is seen: the first `count` positions. `slots[p]` is the disk slot of position p, `staged[p]` its stage slot, or Progress::NONE.
// Kept: arrays with a count beside them: fixed memory, no heap.
#[derive(Clone, Copy)]
pub struct Seen {
    pub count: usize,
    pub slots: [u8; 64],
    pub staged: [u8; 64],
}

impl Seen {
    // The bytes of a segment.
    pub const SEGMENT: usize = 64;

    // Where the sector at a position is: in the stage where it has a copy there, else on the disk.
    pub fn spot(self, position: usize) -> Spot
        requires { position < 64 }
        ensures { result ≡ spot_of self.slots self.staged position }
    {
        let copy = self.staged[position];
        if copy == Progress::NONE {
            Spot::OnDisk(usize::from(self.slots[position]))
        } else {
            Spot::InStage(usize::from(copy))
        }
    }
}
