// Writing a head: the length of its bytes, and its bytes laid over an area that has room for them. Rests on `sia`'s definitions.
#![tactic(auto)]

ghost use Rattle.std.specs.Prelude.{◌≡◌, Bool, true, List, ℕ, ◌+◌, ◌*◌, ◌≤◌, length};
ghost use Rattle.lists.specs.Tests.{every};
ghost use Rattle.area.specs.Area.{put};
ghost use Rattle.sia.specs.Encode as Says;
ghost use Rattle.sia.specs.Encode.{left, joined, operand_bytes, instruction_bytes, encode, few_operands};
ghost use Rattle.sia_write.specs.Refusals.{number_of, written_of};

use sia::{Head, Instruction, Operand};
use std::error::Error;
use std::fmt;

// Why a head is not written.
#[derive(Clone, Copy, Debug, PartialEq, Eq)]
pub enum Refusal {
    // A count, or the declared length, is above its limit.
    AboveLimit,
    // The area is shorter than the head's bytes.
    NoRoom,
}

impl Refusal {
    // Document 01's number: 10 or 2.
    pub fn number(self) -> u64
        ensures { result ≡ number_of self }
    {
        match self {
            Refusal::AboveLimit => 10,
            Refusal::NoRoom => 2,
        }
    }
}

impl fmt::Display for Refusal {
    fn fmt<W: fmt::Write>(&self, f: &mut fmt::Formatter<W>) -> fmt::Result {
        match self {
            Refusal::AboveLimit => write!(f, "a count or the length of a head is above its limit"),
            Refusal::NoRoom => write!(f, "an area is too short for a head"),
        }
    }
}

impl Error for Refusal {}

// The length of an instruction's bytes: 25, and 16 for each operand.
fn instruction_length(x: Instruction) -> usize
    requires { x.count ≤ 4 }
    ensures { (result ≡ length (instruction_bytes x)) × (result ≤ 89) }
{
    25 + 16 * x.count as usize
}

// The length of the bytes of instructions.
fn instructions_length(list: &[Instruction]) -> usize
    requires length_bound { length list.now ≤ 32 }
    requires list_value { every few_operands list.now ≡ true }
    ensures { (result ≡ length (joined instruction_bytes list.now)) × (result ≤ 89 * length list.now) }
{
    let mut total = 0;
    for x in list {
        total += instruction_length(*x);
    }
    total
}

// The length of a head's bytes: 48, and those of its instructions.
fn head_length(head: Head) -> usize
    requires { Says.within head ≡ true }
    ensures { result ≡ length (encode head) }
{
    48 + instructions_length(&head.instructions[..head.count as usize])
}

// What a head's lists hold: it is written as the bytes of the definition, where it fits.
trait Entry: Copy {
    ghost bytes: { Self → List ℕ };

    ghost fits: { Self → Bool };

    // Laid over an area from `at` on. It answers where they end.
    fn put(self, out: &mut [u8], at: usize) -> usize
        requires self_fits { fits self ≡ true }
        requires bytes_in_bounds { at + length (bytes self) ≤ length out.old }
        ensures { (result ≡ at + length (bytes self)) × (out.new ≡ put out.old at (bytes self)) };
}

impl Entry for Operand {
    ghost bytes = { operand_bytes };

    ghost fits = { λ _. true };

    fn put(self, out: &mut [u8], at: usize) -> usize {
        area::store(out, at, 8, self.offset);
        area::store(out, at + 8, 8, self.len);
        at + 16
    }
}

impl Entry for Instruction {
    ghost bytes = { instruction_bytes };

    ghost fits = { few_operands };

    // One of the six names from its fixed byte string.
    fn put(self, out: &mut [u8], at: usize) -> usize {
        let name = sia::fixed_name(self.name);
        area::copy_between(&name, 0, out, at, 16);
        area::store(out, at + 16, 8, self.count);
        let end = put_entries(&self.operands[..self.count as usize], out, at + 24);
        out[end] = u8::from(self.proof);
        end + 1
    }
}

// The bytes of entries, one behind the other, laid over an area from `at` on. It answers where they end.
fn put_entries<T: Entry>(list: &[T], out: &mut [u8], at: usize) -> usize
    requires list_fits { every T.fits list.now ≡ true }
    requires list_in_bounds { at + length (joined T.bytes list.now) ≤ length out.old }
    ensures { (result ≡ at + length (joined T.bytes list.now))
        × (out.new ≡ put out.old at (joined T.bytes list.now)) }
{
    let mut place = at;
    for x in list {
        place = x.put(out, place);
    }
    place
}

// The bytes of a head, laid over the front of an area: the ReadOnly word from its fixed byte string.
fn put_head(head: Head, out: &mut [u8])
    requires head_value { Says.within head ≡ true }
    requires head_in_bounds { length (encode head) ≤ length out.old }
    ensures { out.new ≡ put out.old 0 (encode head) }
{
    let contract = sia::fixed_id(head.contract);
    area::copy_between(&contract, 0, out, 0, 32);
    area::store(out, 32, 8, head.count);
    let end = put_entries(&head.instructions[..head.count as usize], out, 40);
    area::store(out, end, 8, head.length);
}

// The bytes of a head within limits, laid over the front of an area; it answers their length. Refused, the area stays as it was.
pub fn write_head(head: Head, out: &mut [u8]) -> Result<usize, Refusal>
    ensures { left (written_of result) out.new ≡ Says.write head out.old }
{
    if !sia::within(head) {
        return Err(Refusal::AboveLimit);
    }
    let length = head_length(head);
    if out.len() < length {
        return Err(Refusal::NoRoom);
    }
    put_head(head, out);
    Ok(length)
}
