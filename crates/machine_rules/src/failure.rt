// Why an instruction fails, by document 01's table of checks, and the number that its record has.
ghost use Rattle.std.specs.Prelude.{◌≡◌};
ghost use Rattle.machine_rules.specs.Failure.{failure_number};

use std::fmt;

// The first is an interrupt's; those from NoStageSlot on are the host's.
#[derive(Clone, Copy, Debug, PartialEq, Eq)]
pub enum Failure {
    Interrupted,
    IllFormed,
    PastEnd,
    Malformed,
    ReadOnly,
    NotFound,
    BadSpan,
    BadProof,
    OverBudget,
    NoStageSlot,
    NoDisk,
    NoOutput,
}

impl Failure {
    // The number of its record.
    pub fn number(self) -> u64
        ensures { result ≡ failure_number self }
    {
        match self {
            Failure::Interrupted => 20,
            Failure::IllFormed => 21,
            Failure::PastEnd => 22,
            Failure::Malformed => 23,
            Failure::ReadOnly => 24,
            Failure::NotFound => 25,
            Failure::BadSpan => 26,
            Failure::BadProof => 27,
            Failure::OverBudget => 28,
            Failure::NoStageSlot => 40,
            Failure::NoDisk => 41,
            Failure::NoOutput => 42,
        }
    }
}

impl fmt::Display for Failure {
    fn fmt<W: fmt::Write>(&self, f: &mut fmt::Formatter<W>) -> fmt::Result {
        f.write_str(match self {
            Failure::Interrupted => "interrupted",
            Failure::IllFormed => "unknown name, or wrong number of operands",
            Failure::PastEnd => "an operand ends past the declared length",
            Failure::Malformed => "an input is malformed",
            Failure::ReadOnly => "a change in read-only mode",
            Failure::NotFound => "contract or sector root not found",
            Failure::BadSpan => "a span or new size is not allowed",
            Failure::BadProof => "a proof is asked that cannot be made",
            Failure::OverBudget => "the tally would pass the budget",
            Failure::NoStageSlot => "too few free stage slots",
            Failure::NoDisk => "no room on the disk",
            Failure::NoOutput => "no room in the output area",
        })
    }
}
