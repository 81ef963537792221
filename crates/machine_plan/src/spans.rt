// Checks 26 and 27: the spans that an instruction names. Offsets and lengths are any numbers.
ghost use Rattle.std.specs.Prelude.{◌≡◌, ◌≤◌};
ghost use Rattle.lists.specs.Pick.{either};
ghost use Rattle.area.specs.Slots.{Size};
ghost use Rattle.machine_rules.specs.Plan.{bad_span, bad_size, bad_spans, bad_proof};

use crate::sums::far_above;
use machine_inputs::{above, kind};
use machine_rules::Args;
use sia::Op;

// Whether a span has length 0, is past the end, or across a sector edge.
pub fn bad_span(z: u64, end: u64, at: u64, n: u64) -> bool
    requires { Size z }
    ensures { result ≡ bad_span z end at n }
{
    n == 0 || above(end, at, n) || z < at % z + n
}

// Whether one of two spans of a length is bad.
fn bad_pair(z: u64, end: u64, one: u64, two: u64, n: u64) -> bool
    requires { Size z }
    ensures { result ≡ either (bad_span z end one n) (bad_span z end two n) }
{
    bad_span(z, end, one, n) || bad_span(z, end, two, n)
}

// Whether a new size is not whole sectors, or more than one sector away.
pub fn bad_size(z: u64, size: u64, new: u64) -> bool
    requires { Size z }
    ensures { result ≡ bad_size z size new }
{
    new % z != 0 || far_above(z, size, new) || far_above(z, new, size)
}

// 26: of a read the span in the sectors that are seen; Write's, and both of Copy and Swap, in the parent; Truncate's new size.
pub fn bad_spans(z: u64, size: u64, seen: u64, op: Op, args: Args) -> bool
    requires size { Size z }
    requires seen_bound { seen ≤ 64 }
    ensures { result ≡ bad_spans z size seen op args }
{
    // Kept: no plainer as a table of closures: these are the definition's cases, and the arms take other arguments.
    match op {
        Op::Read | Op::ReadSector => bad_span(z, seen * z, args.first, args.len),
        Op::Write => bad_span(z, size, args.first, args.len),
        Op::Copy | Op::Swap => bad_pair(z, size, args.first, args.second, args.len),
        Op::Truncate => bad_size(z, size, args.first),
        Op::Unknown => false,
    }
}

// 27: whether a proof is asked of what is no read, or of an offset or length that is not whole segments.
pub fn bad_proof(op: Op, args: Args) -> bool
    ensures { result ≡ bad_proof op args }
{
    !kind(op).reads || args.first % 64 != 0 || args.len % 64 != 0
}
