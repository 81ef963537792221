// A number put into the host's record, to damage it. What does not fit is malformed; an index or a value that passed `fits` is within its
// array or its width. Elsewhere an index behind an array's end leaves the record as it is, and of a value that is too wide the low part is
// put in. Rests on `host`.
#![tactic(auto)]

ghost use Rattle.std.specs.Prelude.{◌≡◌, ◌%◌, ◌<◌, IfSome};

use host::{Host, Place, Prices};
use sia::Instruction;

// What is put where: a number, a flag, or a byte at its place in an array.
// Kept: `Clone` and `Copy` alone, here and below: nothing compares or prints these.
#[derive(Clone, Copy)]
enum Poke {
    Disk(u64),
    Stage(u64),
    Sector(u64),
    // a byte of the roots that are kept beside the slots
    DiskRoots(usize, u8),
    StageRoots(usize, u8),
    // a place of a contract
    InPlace(usize, PlacePoke),
    // the program
    Active(bool),
    Came(u64),
    Ran(u64),
    Tally(u64),
    Written(u64),
    Failed(bool),
    Size(u64),
    Staged(usize, u8),
    Room(u64),
    Budget(u64),
    Price(u64, u16),
    // its head
    Contract(usize, u8),
    Count(u64),
    Length(u64),
    InInstruction(usize, InstructionPoke),
}

#[derive(Clone, Copy)]
enum PlacePoke {
    Held(bool),
    Id(usize, u8),
    Size(u64),
    Slots(usize, u8),
}

#[derive(Clone, Copy)]
enum InstructionPoke {
    Name(usize, u8),
    Count(u64),
    Offset(usize, u64),
    Len(usize, u64),
    Proof(bool),
}

// Kept: a field, i, j and a value are parameters, here and below, as they stand in a script: `poke_of` makes a `Poke` of them.

// Whether there is such a field, and i, j and the value are within its limits.
pub fn fits(field: u64, i: u64, j: u64, value: u64) -> bool {
    let price = field != 24 || i < 7;
    field <= 27 && price && value <= most(field) && poke_of(field, i, j, value).is_some()
}

// The largest value: flags, bytes and slots, prices, and all else.
fn most(field: u64) -> u64 {
    match field {
        2 | 6 | 11 | 23 => 1,
        3 | 5 | 13 | 16 | 19 | 26 | 27 => 255,
        24 => 65_535,
        _ => u64::MAX,
    }
}

// The host with the value in its field.
pub fn poked(host: Host, field: u64, i: u64, j: u64, value: u64) -> Host {
    match poke_of(field, i, j, value) {
        Some(poke) => put(host, poke),
        None => host,
    }
}

// The poke that the numbers of a script stand for: a field, i and j where they say which of an array's, and a value. None behind an array's
// end; a flag is raised by 1 alone, and any field that there is not stands for the last.
fn poke_of(field: u64, i: u64, j: u64, value: u64) -> Option<Poke> {
    match field {
        0 => Some(Poke::Disk(value)),
        1 => Some(Poke::Stage(value)),
        2..=5 => Some(Poke::InPlace(below(i, 8)?, place_poke_of(field, j, value)?)),
        6 => Some(Poke::Active(value == 1)),
        7 => Some(Poke::Came(value)),
        8 => Some(Poke::Ran(value)),
        9 => Some(Poke::Tally(value)),
        10 => Some(Poke::Written(value)),
        11 => Some(Poke::Failed(value == 1)),
        12 => Some(Poke::Size(value)),
        13 => Some(Poke::Staged(below(i, 64)?, low8(value))),
        14 => Some(Poke::Room(value)),
        15 => Some(Poke::Budget(value)),
        16 => Some(Poke::Contract(below(i, 32)?, low8(value))),
        17 => Some(Poke::Count(value)),
        18 => Some(Poke::Length(value)),
        24 => Some(Poke::Price(i, low16(value))),
        25 => Some(Poke::Sector(value)),
        26 => Some(Poke::DiskRoots(32 * below(i, 64)? + below(j, 32)?, low8(value))),
        27 => Some(Poke::StageRoots(32 * below(i, 16)? + below(j, 32)?, low8(value))),
        _ => Some(Poke::InInstruction(below(i, 32)?, instruction_poke_of(field, j, value)?)),
    }
}

fn place_poke_of(field: u64, j: u64, value: u64) -> Option<PlacePoke> {
    match field {
        2 => Some(PlacePoke::Held(value == 1)),
        3 => Some(PlacePoke::Id(below(j, 32)?, low8(value))),
        4 => Some(PlacePoke::Size(value)),
        _ => Some(PlacePoke::Slots(below(j, 64)?, low8(value))),
    }
}

fn instruction_poke_of(field: u64, j: u64, value: u64) -> Option<InstructionPoke> {
    match field {
        19 => Some(InstructionPoke::Name(below(j, 16)?, low8(value))),
        20 => Some(InstructionPoke::Count(value)),
        21 => Some(InstructionPoke::Offset(below(j, 4)?, value)),
        23 => Some(InstructionPoke::Proof(value == 1)),
        _ => Some(InstructionPoke::Len(below(j, 4)?, value)),
    }
}

// A place in an array of so many.
fn below(n: u64, end: usize) -> Option<usize>
    ensures { IfSome result (λ k. k < end) }
{
    if n < end as u64 {
        return Some(n as usize);
    }
    None
}

fn low8(n: u64) -> u8 {
    (n % 256) as u8
}

pub fn low16(n: u64) -> u16
    ensures { result ≡ n % 65536 }
{
    (n % 65_536) as u16
}

// ---- what is put

fn put(mut host: Host, poke: Poke) -> Host {
    match poke {
        Poke::Disk(n) => host.disk = n,
        Poke::Stage(n) => host.stage = n,
        Poke::Sector(n) => host.sector = n,
        Poke::DiskRoots(i, byte) => put_byte(&mut host.diskroots, i, byte),
        Poke::StageRoots(i, byte) => put_byte(&mut host.stageroots, i, byte),
        Poke::InPlace(i, poke) => {
            if let Some(place) = host.places.get_mut(i) {
                put_in_place(place, poke);
            }
        }
        Poke::Active(yes) => host.program.active = yes,
        Poke::Came(n) => host.program.came = n,
        Poke::Ran(n) => host.program.progress.ran = n,
        Poke::Tally(n) => host.program.progress.tally = n,
        Poke::Written(n) => host.program.progress.written = n,
        Poke::Failed(yes) => host.program.progress.failed = yes,
        Poke::Size(n) => host.program.progress.size = n,
        Poke::Staged(i, byte) => put_byte(&mut host.program.progress.staged, i, byte),
        Poke::Room(n) => host.program.terms.room = n,
        Poke::Budget(n) => host.program.terms.budget = n,
        Poke::Price(i, price) => put_price(&mut host.program.terms.prices, i, price),
        Poke::Contract(i, byte) => put_byte(&mut host.program.terms.head.contract, i, byte),
        Poke::Count(n) => host.program.terms.head.count = n,
        Poke::Length(n) => host.program.terms.head.length = n,
        Poke::InInstruction(i, poke) => {
            if let Some(instruction) = host.program.terms.head.instructions.get_mut(i) {
                put_in_instruction(instruction, poke);
            }
        }
    }
    host
}

fn put_in_place(place: &mut Place, poke: PlacePoke) {
    match poke {
        PlacePoke::Held(yes) => place.held = yes,
        PlacePoke::Id(i, byte) => put_byte(&mut place.id, i, byte),
        PlacePoke::Size(n) => place.size = n,
        PlacePoke::Slots(i, byte) => put_byte(&mut place.slots, i, byte),
    }
}

fn put_price(prices: &mut Prices, i: u64, price: u16) {
    match i {
        0 => prices.init = price,
        1 => prices.memory = price,
        2 => prices.readbase = price,
        3 => prices.readlength = price,
        4 => prices.writebase = price,
        5 => prices.writelength = price,
        _ => prices.truncatebase = price,
    }
}

fn put_in_instruction(instruction: &mut Instruction, poke: InstructionPoke) {
    match poke {
        InstructionPoke::Name(i, byte) => put_byte(&mut instruction.name, i, byte),
        InstructionPoke::Count(n) => instruction.count = n,
        InstructionPoke::Offset(i, n) => {
            if let Some(operand) = instruction.operands.get_mut(i) {
                operand.offset = n;
            }
        }
        InstructionPoke::Len(i, n) => {
            if let Some(operand) = instruction.operands.get_mut(i) {
                operand.len = n;
            }
        }
        InstructionPoke::Proof(yes) => instruction.proof = yes,
    }
}

// One byte of an array; none behind its end.
fn put_byte(bytes: &mut [u8], i: usize, byte: u8) {
    if i < bytes.len() {
        bytes[i] = byte;
    }
}
