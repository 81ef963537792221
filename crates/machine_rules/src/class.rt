// The class of a record's number.
ghost use Rattle.std.specs.Prelude.{◌≡◌};
ghost use Rattle.machine_rules.specs.Class.{class_of};

// Invalid and Host are the classes of document 01's table of checks; an interrupt's number is of a class of its own. No record has a number
// of class Unknown.
#[derive(Clone, Copy, Debug, PartialEq, Eq)]
pub enum Class {
    Done,
    Interrupted,
    Invalid,
    Host,
    Unknown,
}

impl From<u64> for Class {
    ghost from_gives = { λ number class. class ≡ class_of number };

    fn from(number: u64) -> Class {
        match number {
            0 => Class::Done,
            20 => Class::Interrupted,
            21..=28 => Class::Invalid,
            40..=42 => Class::Host,
            _ => Class::Unknown,
        }
    }
}
