// Why a call is refused.
ghost use Rattle.std.specs.Prelude.{◌≡◌};
ghost use Rattle.host.specs.Refusals.{number_of};

use std::error::Error;
use std::fmt;

// Document 01's refusals, each under its number.
#[derive(Clone, Copy, Debug, PartialEq, Eq)]
pub enum Refusal {
    NotInOrder = 1,
    WrongLength = 2,
    Open = 3,
    NoneOpen = 4,
    ReadOnly = 5,
    Present = 6,
    NotFound = 7,
    NoPlace = 8,
    Malformed = 9,
    AboveLimit = 10,
    AboveBudget = 11,
    TooMuchData = 12,
    Unfinished = 13,
    Disagreed = 14,
    Padded = 15,
}

impl Refusal {
    // Its number, which is never 0: that says done.
    pub fn number(self) -> u64
        ensures { result ≡ number_of self }
    {
        self as u64
    }
}

impl fmt::Display for Refusal {
    fn fmt<W: fmt::Write>(&self, f: &mut fmt::Formatter<W>) -> fmt::Result {
        f.write_str(match self {
            Refusal::NotInOrder => "host not in order",
            Refusal::WrongLength => "an area or length not as stated",
            Refusal::Open => "a program is open",
            Refusal::NoneOpen => "no program open",
            Refusal::ReadOnly => "id is the ReadOnly word",
            Refusal::Present => "id already present",
            Refusal::NotFound => "contract not found",
            Refusal::NoPlace => "no free place for a contract",
            Refusal::Malformed => {
                "bytes missing or left over, a flag above 1, or a price or their count not as stated"
            },
            Refusal::AboveLimit => "a count or the declared length above its limit",
            Refusal::AboveBudget => "start price above budget",
            Refusal::TooMuchData => "data passes the declared length",
            Refusal::Unfinished => "program not ended, or failed",
            Refusal::Disagreed => "agreed size or root differs",
            Refusal::Padded => "id is four bytes filled with zeros",
        })
    }
}

impl Error for Refusal {}
