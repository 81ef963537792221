// Where the parts of a record stand: number, cost, size (8 bytes each), root (32), proof count and hashes, output count and bytes.
ghost use Rattle.std.specs.Prelude.{◌≡◌, ◌≤◌, length, IfOk};
ghost use Rattle.showing.specs.Whole.{told, told_of, parts_at, Whole};

use std::fmt;

// The bytes ahead of the hashes, and of a hash.
const AHEAD: usize = 64;

// A record's hashes stand from `hashes` to `middle`, its output from `output` to `end`.
// Kept: `Clone` and `Copy` alone, here and below: nothing compares these.
#[derive(Clone, Copy)]
pub struct Parts {
    pub hashes: usize,
    pub middle: usize,
    pub output: usize,
    pub end: usize,
}

// What a record lacks: bytes ahead of its hashes, hashes, its output's count, or output.
#[derive(Clone, Copy)]
pub enum Missing {
    Ahead,
    Hashes,
    Count,
    Output,
}

impl fmt::Display for Missing {
    fn fmt<W: fmt::Write>(&self, f: &mut fmt::Formatter<W>) -> fmt::Result {
        f.write_str(match self {
            Missing::Ahead => "the record is cut off",
            Missing::Hashes => "its count of hashes passes the end",
            Missing::Count => "it is cut off before its output",
            Missing::Output => "its count of output bytes passes the end",
        })
    }
}

// What is missing, and where that begins.
#[derive(Clone, Copy)]
pub struct Fault {
    pub missing: Missing,
    pub from: usize,
}

// The record that begins at `at`.
pub fn parts_at(input: &[u8], at: usize) -> Result<Parts, Fault>
    requires { at ≤ length input.now }
    ensures value { told_of at result ≡ parts_at input.now at }
    ensures whole { IfOk result (λ p. Whole at (length input.now) (told at p)) }
{
    if input.len() - at < AHEAD {
        return Err(Fault {
            missing: Missing::Ahead,
            from: at,
        });
    }
    let hashes = at + AHEAD;
    let count = area::load(input, at + 56);
    if (((input.len() - hashes) / 32) as u64) < count {
        return Err(Fault {
            missing: Missing::Hashes,
            from: at + 56,
        });
    }
    let middle = hashes + 32 * count as usize;
    if input.len() - middle < 8 {
        return Err(Fault {
            missing: Missing::Count,
            from: middle,
        });
    }
    let output = middle + 8;
    let length = area::load(input, middle);
    if ((input.len() - output) as u64) < length {
        return Err(Fault {
            missing: Missing::Output,
            from: middle,
        });
    }
    let end = output + length as usize;
    Ok(Parts {
        hashes,
        middle,
        output,
        end,
    })
}
