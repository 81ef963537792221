// Checks 21 and 22, and the need of an instruction.
ghost use Rattle.std.specs.Prelude.{◌≡◌, false, ◌+◌, ◌≤◌, ◌<◌, ◌^◌, min, take};
ghost use Rattle.lists.specs.Tests.{some};
ghost use Rattle.machine_rules.specs.Inputs.{ill_formed, past_end, largest};
ghost use Rattle.machine_rules.specs.Inputs as Says;
ghost use Rattle.machine_inputs.specs.Ends.{ends_past, end_of};

use crate::kinds::kind;
use crate::sums::above;
use sia::{Instruction, Operand};

// 21: whether the name is unknown, or the operand count wrong.
pub fn ill_formed(i: Instruction) -> bool
    ensures { result ≡ ill_formed i }
{
    let kind = kind(sia::op_of(i.name));
    !kind.known || i.count != kind.operands
}

// Whether an operand ends past the declared length.
fn ends_past(declared: u64, o: Operand) -> bool
    ensures { result ≡ ends_past declared o }
{
    above(declared, o.offset, o.len)
}

// The operands that a count counts.
fn listed(count: u64) -> usize
    ensures { (result ≡ min count 4) × (result ≤ 4) }
{
    count.min(Instruction::OPERANDS) as usize
}

// Kept: operands and how many of them count, here and below, as an instruction has them: no heap.

// Whether one of the first n operands ends past the declared length.
fn some_past(declared: u64, list: [Operand; 4], n: usize) -> bool
    requires { n ≤ 4 }
    ensures { result ≡ some (ends_past declared) (take n list) }
{
    list[..n].iter().any(|o| ends_past(declared, *o))
}

// 22: whether an operand ends past the declared length.
pub fn past_end(declared: u64, i: Instruction) -> bool
    ensures { result ≡ past_end declared i }
{
    some_past(declared, i.operands, listed(i.count))
}

// Where an operand of nonzero length ends.
fn end_of(o: Operand) -> u64
    requires { o.offset + o.len < 2 ^ 64 }
    ensures { result ≡ end_of o }
{
    if o.len == 0 { 0 } else { o.offset + o.len }
}

// The largest end among the first n operands.
fn largest_end(declared: u64, list: [Operand; 4], n: usize) -> u64
    requires n_bound { n ≤ 4 }
    requires list_value { some (ends_past declared) (take n list) ≡ false }
    ensures { result ≡ largest (take n list) }
{
    let mut most: u64 = 0;
    for i in 0..n {
        most = most.max(end_of(list[i]));
    }
    most
}

// How many bytes must have come before an instruction is taken.
pub fn need(declared: u64, i: Instruction) -> u64
    ensures { result ≡ Says.need declared i }
{
    if ill_formed(i) {
        return 0;
    }
    if past_end(declared, i) {
        return 0;
    }
    largest_end(declared, i.operands, listed(i.count))
}
