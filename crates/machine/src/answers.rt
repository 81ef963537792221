// What a call on a program hands out where it is done.
use host::Host;

// Kept: `Clone` and `Copy` alone where there is a host, here and below: nothing compares or prints one.

// Of opening, a piece and an interrupt: the tally, and the host.
#[derive(Clone, Copy)]
pub struct Done {
    pub tally: u64,
    pub host: Host,
}

// How a close ended the program: as it asked, or with the changes dropped, document 01's 14, since the agreement names another pair than the
// running one.
#[derive(Clone, Copy, Debug, PartialEq, Eq)]
pub enum End {
    Closed,
    Disagreed,
}

// Of closing: how the program ended, the tally, the growth in bytes, and the host.
#[derive(Clone, Copy)]
pub struct Closing {
    pub end: End,
    pub tally: u64,
    pub growth: i64,
    pub host: Host,
}

// Of a look-up by root: the place of the contract that has the sector, the sector's position there, and whether the stage holds it.
#[derive(Clone, Copy, Debug, PartialEq, Eq)]
pub struct Location {
    pub place: u64,
    pub position: u64,
    pub staged: bool,
}
