// What an instruction's inputs say, and check 23. An operand selects a part of the input area, which is passed on to the decoder of its kind.
// These are inner functions: what they require, their callers prove.
ghost use Rattle.std.specs.Prelude.{◌≡◌, false, ◌+◌, ◌≤◌, length, take};
ghost use Rattle.lists.specs.Tests.{some};
ghost use Rattle.area.specs.Area.{part};
ghost use Rattle.sia.specs.Names.{op_of};
ghost use Rattle.sia.specs.Number.{number_given, number};
ghost use Rattle.sia.specs.declared.Op.TheVariants.{Read, Write, Copy, Truncate};
ghost use Rattle.machine_rules.specs.Inputs.{ill_formed, past_end, inputs_of};
ghost use Rattle.machine_inputs.specs.Ends.{ends_past};
ghost use Rattle.machine_inputs.specs.Given.{key_of, key_told, data_of, given, given_told, one, two, three, data_from, from_of};

use crate::Given;
use machine_rules::Args;
use sia::{Instruction, Op, Operand};

// The id or root that a part of an input is: 32 bytes.
fn key_of(part: &[u8]) -> Option<[u8; 32]>
    ensures { key_told result ≡ key_of part.now }
{
    if part.len() != 32 {
        return None;
    }
    let mut key = [0u8; 32];
    key.copy_from_slice(part);
    Some(key)
}

// How many bytes of data stand behind the count in a part of an input; nothing where there is no count, or another one.
fn data_of(part: &[u8]) -> Option<u64>
    ensures { number_given result ≡ data_of part.now }
{
    if part.len() < 8 {
        return None;
    }
    let rest = part.len() - 8;
    let told = area::load(part, 0) as usize;
    if told != rest {
        return None;
    }
    Some(rest as u64)
}

// The part of the input area that an operand names.
fn part_of<'a>(input: &'a [u8], o: Operand) -> &'a [u8]
    requires { o.offset + o.len ≤ length input.now }
    ensures { result.now ≡ part input.now o.offset o.len }
{
    let a = o.offset as usize;
    let e = a + o.len as usize;
    &input[a..e]
}

// Of Read and ReadSector: contract or root, offset, length.
fn read_args(input: &[u8], list: [Operand; 4]) -> Option<Given>
    requires { some (ends_past (length input.now)) (take 3 list) ≡ false }
    ensures { given_told result ≡ given Read (three input.now list) 0 }
{
    let key = key_of(part_of(input, list[0]))?;
    let first = sia::number_of(part_of(input, list[1]))?;
    let len = sia::number_of(part_of(input, list[2]))?;
    let args = Args {
        key,
        first,
        second: 0,
        len,
    };
    Some(Given { args, from: 0 })
}

// Of Copy and Swap: destination or offset 1, source or offset 2, size.
fn span_args(input: &[u8], list: [Operand; 4]) -> Option<Given>
    requires { some (ends_past (length input.now)) (take 3 list) ≡ false }
    ensures { given_told result ≡ given Copy (three input.now list) 0 }
{
    let first = sia::number_of(part_of(input, list[0]))?;
    let second = sia::number_of(part_of(input, list[1]))?;
    let len = sia::number_of(part_of(input, list[2]))?;
    let args = Args {
        key: [0u8; 32],
        first,
        second,
        len,
    };
    Some(Given { args, from: 0 })
}

// Of Write: offset, data. The data begin behind their count.
fn write_args(input: &[u8], list: [Operand; 4]) -> Option<Given>
    requires { some (ends_past (length input.now)) (take 2 list) ≡ false }
    ensures { given_told result ≡ given Write (two input.now list) (data_from list) }
{
    let two = list[1];
    let first = sia::number_of(part_of(input, list[0]))?;
    let len = data_of(part_of(input, two))?;
    let from = two.offset + 8;
    let args = Args {
        key: [0u8; 32],
        first,
        second: 0,
        len,
    };
    Some(Given { args, from })
}

// Of Truncate: new size.
fn size_args(input: &[u8], list: [Operand; 4]) -> Option<Given>
    requires { some (ends_past (length input.now)) (take 1 list) ≡ false }
    ensures { given_told result ≡ given Truncate (one input.now list) 0 }
{
    let first = sia::number_of(part_of(input, list[0]))?;
    let args = Args {
        key: [0u8; 32],
        first,
        second: 0,
        len: 0,
    };
    Some(Given { args, from: 0 })
}

// What the inputs of a well-formed instruction say; nothing where one is not what it is to be, which is 23.
pub fn decoded(op: Op, i: Instruction, input: &[u8]) -> Option<Given>
    requires op_value { op ≡ op_of i.name }
    requires i_value { ill_formed i ≡ false }
    requires i_value_2 { past_end (length input.now) i ≡ false }
    ensures { given_told result ≡ given op (inputs_of i input.now) (from_of op i) }
{
    // Kept: no plainer as a table: the inputs are defined by cases on the name, and each arm asks for another number of operands.
    match op {
        Op::Read | Op::ReadSector => read_args(input, i.operands),
        Op::Write => write_args(input, i.operands),
        Op::Copy | Op::Swap => span_args(input, i.operands),
        Op::Truncate => size_args(input, i.operands),
        Op::Unknown => None,
    }
}
