// Reading a head, left to right, up to the first fault. Each reader takes its section off the front of the bytes that are left, and `?` hands the
// first fault on. Rests on `sia`'s definitions.
#![tactic(auto)]

ghost use Rattle.std.specs.Prelude.{◌≡◌, List, ℕ, length};
ghost use Rattle.sia.specs.Decode as Says;
ghost use Rattle.sia.specs.Decode.{Reading, several, decode};
ghost use Rattle.sia_read.specs.Faults.{number_of, reading, listed, told_of};

use sia::{Head, Instruction, Operand};
use std::error::Error;
use std::fmt;

// Why bytes are no head.
#[derive(Clone, Copy, Debug, PartialEq, Eq)]
pub enum Fault {
    // Bytes are missing or left over, or a flag is above 1.
    Malformed,
    // A count, or the declared length, is above its limit.
    AboveLimit,
}

// Kept: no plainer. `sia_write::Refusal` has another number and other words for each variant but one, so one enum would give each a variant too many.
impl Fault {
    // Document 01's number: 9 or 10.
    pub fn number(self) -> u64
        ensures { result ≡ number_of self }
    {
        match self {
            Fault::Malformed => 9,
            Fault::AboveLimit => 10,
        }
    }
}

impl fmt::Display for Fault {
    fn fmt<W: fmt::Write>(&self, f: &mut fmt::Formatter<W>) -> fmt::Result {
        match self {
            Fault::Malformed => write!(f, "bytes of a head are missing, left over or no flag"),
            Fault::AboveLimit => write!(f, "a count or the length of a head is above its limit"),
        }
    }
}

impl Error for Fault {}

// The next N bytes.
fn bytes<const N: usize>(rest: &mut &[u8]) -> Result<[u8; N], Fault>
    ensures { reading result rest.new.now ≡ Says.bytes N rest.old.now }
{
    let Some((front, back)) = rest.split_first_chunk::<N>() else {
        return Err(Fault::Malformed);
    };
    *rest = back;
    Ok(*front)
}

// A number: 8 bytes, the lowest first.
fn number(rest: &mut &[u8]) -> Result<u64, Fault>
    ensures { reading result rest.new.now ≡ Says.number rest.old.now }
{
    Ok(u64::from_le_bytes(bytes(rest)?))
}

// A count, or the declared length.
fn limited(rest: &mut &[u8], limit: u64) -> Result<u64, Fault>
    ensures { reading result rest.new.now ≡ Says.limited limit rest.old.now }
{
    let n = number(rest)?;
    if limit < n {
        return Err(Fault::AboveLimit);
    }
    Ok(n)
}

// The proof flag: one byte, 0 or 1.
fn flag(rest: &mut &[u8]) -> Result<bool, Fault>
    ensures { reading result rest.new.now ≡ Says.flag rest.old.now }
{
    let [byte] = bytes::<1>(rest)?;
    if byte <= 1 {
        Ok(byte == 1)
    } else {
        Err(Fault::Malformed)
    }
}

// What a head's lists hold: it is read as the definition `says`.
trait Entry: Copy {
    ghost says: { List ℕ → Reading Self };

    fn read(rest: &mut &[u8]) -> Result<Self, Fault>
        ensures { reading result rest.new.now ≡ says rest.old.now };
}

impl Entry for Operand {
    ghost says = { Says.operand };

    fn read(rest: &mut &[u8]) -> Result<Operand, Fault> {
        let offset = number(rest)?;
        let len = number(rest)?;
        Ok(Operand { offset, len })
    }
}

impl Entry for Instruction {
    ghost says = { Says.instruction };

    // The name as one of the six, where it is one. Operands past the count are empty.
    fn read(rest: &mut &[u8]) -> Result<Instruction, Fault> {
        let name = sia::fixed_name(bytes(rest)?);
        let count = limited(rest, Instruction::OPERANDS)?;
        let mut operands = [Operand::empty(); 4];
        entries(rest, &mut operands[..count as usize])?;
        let proof = flag(rest)?;
        Ok(Instruction {
            name,
            count,
            operands,
            proof,
        })
    }
}

// As many entries as there is room for.
fn entries<T: Entry>(rest: &mut &[u8], room: &mut [T]) -> Result<(), Fault>
    ensures { listed result room.new rest.new.now ≡ several T.says (length room.old) rest.old.now }
{
    for entry in room {
        *entry = T::read(rest)?;
    }
    Ok(())
}

// A head up to its last section. Its id as the ReadOnly word, where it is that. Instructions past the count are empty.
fn head(rest: &mut &[u8]) -> Result<Head, Fault>
    ensures { reading result rest.new.now ≡ Says.head rest.old.now }
{
    let contract = sia::fixed_id(bytes(rest)?);
    let count = limited(rest, Head::INSTRUCTIONS)?;
    let mut instructions = [Instruction::empty(); 32];
    entries(rest, &mut instructions[..count as usize])?;
    let length = limited(rest, Head::LENGTH)?;
    Ok(Head {
        contract,
        count,
        instructions,
        length,
    })
}

// The head that bytes are: a whole one, with no bytes behind it.
pub fn read_head(bytes: &[u8]) -> Result<Head, Fault>
    ensures { told_of result ≡ decode bytes.now }
{
    let mut rest = bytes;
    let head = head(&mut rest)?;
    if !rest.is_empty() {
        return Err(Fault::Malformed);
    }
    Ok(head)
}
