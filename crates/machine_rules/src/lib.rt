// What the machine means stands in specs/: document 01 as definitions, and the demands. Here are the structs and the enums that they
// share with the code. Rests on `host` (the record), `sia` (heads) and `tree` (roots and proofs).
#![tactic(auto)]

pub mod class; // class.rt: the class of a record's number
mod failure; // failure.rt: why an instruction fails

pub use failure::Failure;
use host::{Place, Terms};

// What stays while the instructions of a program run: the size of a sector, the sectors of disk and stage, the contracts, and the terms of the program.
#[derive(Clone, Copy)]
pub struct Setting {
    pub sector: u64,
    pub disksectors: u64,
    pub stagesectors: u64,
    pub places: [Place; 8],
    pub terms: Terms,
}

// What kinds of instructions differ in: whether there is such an instruction, how many operands it has, its time, whether it hands out what it reads,
// and whether it changes the parent.
// Kept: a flag for the unknown name: the definitions' table, `kind` of specs/Kinds.antt, has a row of this form for it.
#[derive(Clone, Copy, Debug, PartialEq, Eq)]
pub struct Kind {
    pub known: bool,
    pub operands: u64,
    pub time: u64,
    pub reads: bool,
    pub changes: bool,
}

// What an instruction's inputs say: an id or root, zeros where there is none; two offsets, the first also Truncate's new size; and a length.
#[derive(Clone, Copy, Debug, PartialEq, Eq)]
pub struct Args {
    pub key: [u8; 32],
    pub first: u64,
    pub second: u64,
    pub len: u64,
}

// The plan of an instruction that can run: its cost, the parent's new size, the hashes of its proof and the length of its record.
#[derive(Clone, Copy, Debug, PartialEq, Eq)]
pub struct Plan {
    pub cost: u64,
    pub size: u64,
    pub hashes: u64,
    pub count: u64,
}

// Where the bytes of a sector are: in a slot of the disk, or of the stage.
#[derive(Clone, Copy, Debug, PartialEq, Eq)]
pub enum Spot {
    OnDisk(usize),
    InStage(usize),
}

// A sector by the place of its contract and its position there, and where its bytes are.
#[derive(Clone, Copy, Debug, PartialEq, Eq)]
pub struct Seat {
    pub place: usize,
    pub position: usize,
    pub spot: Spot,
}

// A size and a root.
#[derive(Clone, Copy, Debug, PartialEq, Eq)]
pub struct Pair {
    pub size: u64,
    pub root: [u8; 32],
}
