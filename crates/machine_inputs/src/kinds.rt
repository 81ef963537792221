// What kinds of instructions differ in: one table.
ghost use Rattle.std.specs.Prelude.{◌≡◌};
ghost use Rattle.machine_rules.specs.Kinds as Says;

use machine_rules::Kind;
use sia::Op;

fn row(known: bool, operands: u64, time: u64, reads: bool, changes: bool) -> Kind
    ensures { result ≡ Says.row known operands time reads changes }
{
    Kind {
        known,
        operands,
        time,
        reads,
        changes,
    }
}

// Known, operands, time, reads, changes.
pub fn kind(op: Op) -> Kind
    ensures { result ≡ Says.kind op }
{
    match op {
        Op::Read | Op::ReadSector => row(true, 3, 10, true, false),
        Op::Write => row(true, 2, 20, false, true),
        Op::Copy => row(true, 3, 20, false, true),
        Op::Swap => row(true, 3, 30, false, true),
        Op::Truncate => row(true, 1, 5, false, true),
        Op::Unknown => row(false, 0, 0, false, false),
    }
}

// Whether an instruction hands out what it reads.
pub fn reads(op: Op) -> bool
    ensures { result ≡ Says.reads op }
{
    kind(op).reads
}
