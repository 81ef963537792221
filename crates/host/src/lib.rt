// The record of a host: plain data, so that a damaged record is a value like any other; where its contracts and slots are. What it means
// that a host is in order, and what the calls answer that make a host, form a contract and drop one, stands here; `host_order` decides the
// one, `host_contracts` makes the others. Rests on `sia` for heads and on `area`.
// These are inner functions: what they require, their callers prove.
#![tactic(auto)]

ghost use Rattle.std.specs.Prelude.{◌≡◌};
ghost use Rattle.host.specs.Empty.{no_place, no_prices, no_terms, no_progress, no_program};
ghost use Rattle.host.specs.Empty as Says;
ghost use Rattle.host.specs.Order as Order;

mod places; // places.rt: contracts by id, and their sizes
mod pairs; // pairs.rt: whether none of a list are related
mod refusal; // refusal.rt: why a call is refused
mod sizes; // sizes.rt: which sizes of sectors there are
mod slots; // slots.rt: slots in an array
mod taken; // taken.rt: the slots that contracts take, and the lowest free ones

pub use pairs::{apart, apart_but};
pub use places::{has_id, place_number, place_of, replaced_in, sizes_fit};
pub use refusal::Refusal;
use sia::Head;
pub use sizes::is_size;
pub use slots::Slots;
pub use taken::{below, distinct, free_copy, sectors, slots_taken, staged_in};

// A place for a contract. Of the slots, those below its size in sectors: `slots[p]` is the disk slot of position p.
// Kept: flags beside what they speak of, here and below, and no `Option`: definitions (`no_place`, `has_id`, `in_order`) name each field.
// Kept: `Clone` and `Copy` alone, here and below: nothing compares or prints a record.
#[derive(Clone, Copy)]
pub struct Place {
    pub held: bool,
    pub id: [u8; 32],
    pub size: u64,
    pub slots: [u8; 64],
}

// What instructions are charged.
#[rattlefmt::skip]
#[derive(Clone, Copy)]
pub struct Prices {
    pub init: u16, pub memory: u16,
    pub readbase: u16, pub readlength: u16, pub writebase: u16, pub writelength: u16, pub truncatebase: u16,
}

// What opening fixes; `room` is the output length.
#[derive(Clone, Copy)]
pub struct Terms {
    pub head: Head,
    pub prices: Prices,
    pub budget: u64,
    pub room: u64,
}

// What instructions change: how many ran, the tally, the bytes written, the running size, and whether one failed. `staged[p]` is
// the stage slot of position p, or NONE.
#[rattlefmt::skip]
#[derive(Clone, Copy)]
pub struct Progress {
    pub ran: u64, pub tally: u64, pub written: u64, pub size: u64, pub failed: bool,
    pub staged: [u8; 64],
}

// The program, if one is open; `came` counts the data bytes that have come.
#[derive(Clone, Copy)]
pub struct Program {
    pub active: bool,
    pub terms: Terms,
    pub came: u64,
    pub progress: Progress,
}

// The bytes of a sector, the sectors of the disk area and of the stage area, the places for contracts, the program, and a root kept beside
// each slot of disk and stage: that of slot n is the 32 bytes from 32 * n on.
#[derive(Clone, Copy)]
pub struct Host {
    pub sector: u64,
    pub disk: u64,
    pub stage: u64,
    pub places: [Place; 8],
    pub program: Program,
    pub diskroots: [u8; 2048],
    pub stageroots: [u8; 512],
}

impl Place {
    // The bytes of an id.
    pub const ID: usize = 32;

    // The positions that a place has slots for.
    pub const SLOTS: u64 = 64;

    // Kept: `none` here and below by hand. An array of more than 32 has no `Default`, so `Prices` alone could derive it; and `none` says that
    // the value is no contract, no program.
    pub fn none() -> Place
        ensures { result ≡ no_place }
    {
        Place {
            held: false,
            id: [0; 32],
            size: 0,
            slots: [0; 64],
        }
    }
}

impl Prices {
    // What every program is charged memory for, besides its data.
    pub const MEMORY: u64 = 1_048_576;

    #[rattlefmt::skip]
    pub fn none() -> Prices
        ensures { result ≡ no_prices }
    {
        Prices { init: 0, memory: 0, readbase: 0, readlength: 0, writebase: 0, writelength: 0, truncatebase: 0 }
    }
}

impl Terms {
    // The output length, least and most. The least is also what is left of it unless the program failed.
    pub const LEAST: u64 = 72;

    pub const MOST: u64 = 65_536;

    pub fn none() -> Terms
        ensures { result ≡ no_terms }
    {
        Terms {
            head: Head::empty(),
            prices: Prices::none(),
            budget: 0,
            room: 0,
        }
    }
}

impl Progress {
    // The stage slot of a position that is not staged.
    pub const NONE: u8 = 255;

    #[rattlefmt::skip]
    pub fn none() -> Progress
        ensures { result ≡ no_progress }
    {
        Progress { ran: 0, tally: 0, written: 0, size: 0, failed: false, staged: [0; 64] }
    }
}

impl Program {
    // No open program.
    pub fn none() -> Program
        ensures { result ≡ no_program }
    {
        Program {
            active: false,
            terms: Terms::none(),
            came: 0,
            progress: Progress::none(),
        }
    }
}

impl Host {
    // The bytes of a sector: a power of two from LEAST to MOST.
    pub const LEAST: u64 = 4_096;

    pub const MOST: u64 = 4_194_304;

    // The most sectors of a disk area, and of a stage area.
    pub const DISK: u64 = 64;

    pub const STAGE: u64 = 16;

    pub const PLACES: usize = 8;

    // A host with so many sectors of that size that holds no contract and no open program.
    pub fn bare(sector: u64, disk: u64, stage: u64) -> Host
        ensures { result ≡ Says.bare sector disk stage }
    {
        Host {
            sector,
            disk,
            stage,
            places: [Place::none(); 8],
            program: Program::none(),
            diskroots: [0; 2048],
            stageroots: [0; 512],
        }
    }
}

// Whether an area of n sectors can be lent.
pub fn lent(n: u64, most: u64) -> bool
    ensures { result ≡ Order.lent most n }
{
    (1..=most).contains(&n)
}
