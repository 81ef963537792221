// Heads in Sia encoding: a contract's id, the instructions of a program with their operands, and the length of its data. Numbers
// are 8 bytes, the lowest first. What a head's bytes are, and how they are read, stands here; `sia_read` reads them, `sia_write` writes them.
// Rests on `area`.
#![tactic(auto)]

ghost use Rattle.std.specs.Prelude.{◌≡◌, length};
ghost use Rattle.area.specs.Area.{same};
ghost use Rattle.sia.specs.Number.{number_given, number};
ghost use Rattle.sia.specs.Names.{name_of, op_of, read_only};
ghost use Rattle.sia.specs.Empty.{no_operand, no_instruction, no_head};

mod limits; // limits.rt: the limits of a head

pub use limits::within;

// A part of the input that an instruction names.
#[derive(Clone, Copy, Debug, PartialEq, Eq)]
pub struct Operand {
    pub offset: u64,
    pub len: u64,
}

// Of the operands, the first `count`.
// Kept: no heap. A head is fixed memory, so its lists are arrays with a count.
#[derive(Clone, Copy, Debug, PartialEq, Eq)]
pub struct Instruction {
    pub name: [u8; 16],
    pub count: u64,
    pub operands: [Operand; 4],
    pub proof: bool,
}

// Of the instructions, the first `count`; `length` is the declared length of the data.
#[derive(Clone, Copy, Debug, PartialEq, Eq)]
pub struct Head {
    pub contract: [u8; 32],
    pub count: u64,
    pub instructions: [Instruction; 32],
    pub length: u64,
}

// The kinds of instructions: the six that have a name, and one for every other name.
#[derive(Clone, Copy, Debug, PartialEq, Eq)]
pub enum Op {
    Read,
    ReadSector,
    Write,
    Copy,
    Swap,
    Truncate,
    Unknown,
}

// Kept: no plainer. A derived `Default` promises its value field by field, and callers of `empty` use one equation.
impl Operand {
    pub fn empty() -> Operand
        ensures { result ≡ no_operand }
    {
        Operand { offset: 0, len: 0 }
    }
}

impl Instruction {
    // The largest operand count.
    pub const OPERANDS: u64 = 4;

    pub fn empty() -> Instruction
        ensures { result ≡ no_instruction }
    {
        Instruction {
            name: [0; 16],
            count: 0,
            operands: [Operand::empty(); 4],
            proof: false,
        }
    }
}

impl Head {
    pub const INSTRUCTIONS: u64 = 32;

    pub const LENGTH: u64 = 65_536;

    pub const READ_ONLY: [u8; 32] = *b"ReadOnly\0\0\0\0\0\0\0\0\0\0\0\0\0\0\0\0\0\0\0\0\0\0\0\0";

    pub fn empty() -> Head
        ensures { result ≡ no_head }
    {
        Head {
            contract: [0; 32],
            count: 0,
            instructions: [Instruction::empty(); 32],
            length: 0,
        }
    }
}

impl Op {
    // The names, filled with zero bytes; an unknown instruction has none.
    pub const READ: [u8; 16] = *b"Read\0\0\0\0\0\0\0\0\0\0\0\0";

    pub const READ_SECTOR: [u8; 16] = *b"ReadSector\0\0\0\0\0\0";

    pub const WRITE: [u8; 16] = *b"Write\0\0\0\0\0\0\0\0\0\0\0";

    pub const COPY: [u8; 16] = *b"Copy\0\0\0\0\0\0\0\0\0\0\0\0";

    pub const SWAP: [u8; 16] = *b"Swap\0\0\0\0\0\0\0\0\0\0\0\0";

    pub const TRUNCATE: [u8; 16] = *b"Truncate\0\0\0\0\0\0\0\0";

    pub const UNKNOWN: [u8; 16] = [0; 16];

    // Those that have a name.
    const NAMED: [Op; 6] = [
        Op::Read,
        Op::ReadSector,
        Op::Write,
        Op::Copy,
        Op::Swap,
        Op::Truncate,
    ];

    // The name that a head has for an instruction.
    pub fn name(self) -> [u8; 16]
        ensures { result ≡ name_of self }
    {
        match self {
            Op::Read => Op::READ,
            Op::ReadSector => Op::READ_SECTOR,
            Op::Write => Op::WRITE,
            Op::Copy => Op::COPY,
            Op::Swap => Op::SWAP,
            Op::Truncate => Op::TRUNCATE,
            Op::Unknown => Op::UNKNOWN,
        }
    }

    // Whether a name is this instruction's, all 16 bytes.
    fn has_name(self, name: [u8; 16]) -> bool
        ensures { result ≡ same name (name_of self) }
    {
        name == self.name()
    }
}

// Which instruction a name is. An unknown name is no fault of a head.
pub fn op_of(name: [u8; 16]) -> Op
    ensures { result ≡ op_of name }
{
    Op::NAMED
        .iter()
        .find(|op| op.has_name(name))
        .copied()
        .unwrap_or(Op::Unknown)
}

// The name as a head holds it: one of the six is its fixed byte string, compared in all 16 bytes; an unknown name is taken as it stands.
pub fn fixed_name(name: [u8; 16]) -> [u8; 16]
    ensures { result ≡ name }
{
    match op_of(name) {
        Op::Unknown => name,
        op => op.name(),
    }
}

// Whether two ids are the same, all 32 bytes.
pub fn same_id(one: [u8; 32], two: [u8; 32]) -> bool
    ensures { result ≡ same one two }
{
    one == two
}

// Whether an id is the ReadOnly word.
pub fn is_read_only(id: [u8; 32]) -> bool
    ensures { result ≡ same id read_only }
{
    id == Head::READ_ONLY
}

// The id as a head holds it: the ReadOnly word is its fixed byte string, compared in all 32 bytes; any other id is taken as it stands.
pub fn fixed_id(id: [u8; 32]) -> [u8; 32]
    ensures { result ≡ id }
{
    if is_read_only(id) {
        return Head::READ_ONLY;
    }
    id
}

// The number that a part of an input is; none, which document 01 calls 23, where it is not 8 bytes.
pub fn number_of(part: &[u8]) -> Option<u64>
    ensures { number_given result ≡ number part.now }
{
    let Ok(bytes) = <[u8; 8]>::try_from(part) else {
        return None;
    };
    Some(u64::from_le_bytes(bytes))
}
