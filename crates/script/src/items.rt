// Each kind of item, and its call. An item is malformed where it lends more than an area has, or where a number does not fit: then no call
// is made.
use crate::shapes::Kind;
use machine::{End, Host, Prices, Refusal};
use script_report::{Behind, Made};

// The most bytes of segments and hashes that are given to the checker.
const PROOF: usize = 131_072;

fn answered(number: u64, tally: u64, growth: i64, host: Host) -> Made {
    Made {
        number,
        tally,
        growth,
        behind: Behind::Nothing,
        host,
    }
}

// A refusal, which leaves this host.
fn refused(why: Refusal, host: Host) -> Made {
    answered(why.number(), 0, 0, host)
}

// What a call on a host and its contracts answered, and what a call of a program did; where it is refused, `before` stands.
fn made_of(made: Result<Host, Refusal>, before: Host) -> Made {
    match made {
        Ok(after) => answered(0, 0, 0, after),
        Err(why) => refused(why, before),
    }
}

fn told(answer: Result<machine::Done, Refusal>, before: Host) -> Made {
    match answer {
        Ok(done) => answered(0, done.tally, 0, done.host),
        Err(why) => refused(why, before),
    }
}

// Kept: the areas are parameters, here and below, since `machine`'s calls take them so, and each item lends other parts of them.

// Makes the call of an item that is whole: a head, a piece or a proof stands at its end.
#[rattlefmt::skip]
pub fn make(item: &[u8], host: Host, disk: &mut [u8], stage: &mut [u8], input: &mut [u8], output: &mut [u8]) -> Option<Made> {
    match Kind::try_from(*item.first()?).ok()? {
        Kind::Fresh => fresh(Host::LEAST, item, 1, disk, stage, input, output),
        Kind::FreshOf => fresh(number(item, 1)?, item, 9, disk, stage, input, output),
        Kind::Form => Some(made_of(machine::form(host, bytes(item, 1)?), host)),
        Kind::Drop => Some(made_of(machine::drop(host, bytes(item, 1)?), host)),
        Kind::Open => open(item, host),
        Kind::Piece => piece(item, host, &*disk, stage, input, output),
        Kind::Interrupt => interrupt(item, host, &*disk, output),
        Kind::GiveUp => close(item, host, disk, &*stage, false, 0, [0u8; 32]),
        Kind::Agree => close(item, host, disk, &*stage, true, number(item, 17)?, bytes(item, 25)?),
        Kind::Reached => reached(item, host, &*disk, &*stage),
        Kind::Sound => sound(item, host, &*disk, &*stage),
        Kind::Locate => locate(item, host),
        Kind::Poke => poke(item, host),
        Kind::Check => check(item, host),
    }
}

// ---- the parts of an item

// The number, and the 32 bytes, that stand from `at` on.
fn number(item: &[u8], at: usize) -> Option<u64> {
    Some(u64::from_le_bytes(*item.get(at..)?.first_chunk()?))
}

fn bytes(item: &[u8], at: usize) -> Option<[u8; 32]> {
    Some(*item.get(at..)?.first_chunk()?)
}

// The front part of an area that is lent, whose length stands at `at`; none where the area is shorter.
fn lent<'a>(item: &[u8], at: usize, area: &'a [u8]) -> Option<&'a [u8]> {
    area.get(..number(item, at)? as usize)
}

fn lent_mut<'a>(item: &[u8], at: usize, area: &'a mut [u8]) -> Option<&'a mut [u8]> {
    area.get_mut(..number(item, at)? as usize)
}

// ---- contracts

// Disk length, stage length, fill, from `at` on: makes the host for areas of these lengths, and fills all four areas with the byte behind
// them.
#[rattlefmt::skip]
fn fresh(
    sector: u64, item: &[u8], at: usize, disk: &mut [u8], stage: &mut [u8], input: &mut [u8], output: &mut [u8],
) -> Option<Made> {
    let byte = *item.get(at..)?.get(16)?;
    let made = machine::fresh(sector, number(item, at)?, number(item, at + 8)?);
    disk.fill(byte);
    stage.fill(byte);
    input.fill(byte);
    output.fill(byte);
    Some(made_of(made, machine::unmade()))
}

// ---- opening

// The price that stands at `at`.
fn price(item: &[u8], at: usize) -> Option<u16> {
    u16::try_from(number(item, at)?).ok()
}

fn prices(item: &[u8]) -> Option<Prices> {
    Some(Prices {
        init: price(item, 17)?,
        memory: price(item, 25)?,
        readbase: price(item, 33)?,
        readlength: price(item, 41)?,
        writebase: price(item, 49)?,
        writelength: price(item, 57)?,
        truncatebase: price(item, 65)?,
    })
}

// Output length, budget, seven prices, head length, head.
fn open(item: &[u8], host: Host) -> Option<Made> {
    let room = number(item, 1)?;
    let budget = number(item, 9)?;
    let prices = prices(item)?;
    let head = item.get(81..)?;
    Some(told(machine::open(host, head, budget, prices, room), host))
}

// ---- an open program

// Lent lengths of disk, stage, input and output; piece length; piece.
#[rattlefmt::skip]
fn piece(item: &[u8], host: Host, disk: &[u8], stage: &mut [u8], input: &mut [u8], output: &mut [u8]) -> Option<Made> {
    let disk = lent(item, 1, disk)?;
    let stage = lent_mut(item, 9, stage)?;
    let input = lent_mut(item, 17, input)?;
    let output = lent_mut(item, 25, output)?;
    let piece = item.get(41..)?;
    Some(told(machine::piece(host, disk, stage, input, output, piece), host))
}

// Lent lengths of disk and output.
fn interrupt(item: &[u8], host: Host, disk: &[u8], output: &mut [u8]) -> Option<Made> {
    let disk = lent(item, 1, disk)?;
    let output = lent_mut(item, 9, output)?;
    Some(told(machine::interrupt(host, disk, output), host))
}

// ---- closing

// Lent lengths of disk and stage; where it agrees, size and root behind them.
#[rattlefmt::skip]
fn close(item: &[u8], host: Host, disk: &mut [u8], stage: &[u8], agreed: bool, size: u64, root: [u8; 32]) -> Option<Made> {
    let disk = lent_mut(item, 1, disk)?;
    let stage = lent(item, 9, stage)?;
    Some(match machine::close(host, disk, stage, agreed, size, root) {
        Ok(closing) => {
            let number = match closing.end {
                End::Closed => 0,
                End::Disagreed => Refusal::Disagreed.number(),
            };
            answered(number, closing.tally, closing.growth, closing.host)
        }
        Err(why) => refused(why, host),
    })
}

// Lent lengths of disk and stage.
fn reached(item: &[u8], host: Host, disk: &[u8], stage: &[u8]) -> Option<Made> {
    let (number, size, root) = match machine::reached(
        host,
        lent(item, 1, disk)?,
        lent(item, 9, stage)?,
    ) {
        Ok(pair) => (0, pair.size, pair.root),
        Err(why) => (why.number(), 0, [0u8; 32]),
    };
    Some(Made {
        number,
        tally: size,
        growth: 0,
        behind: Behind::Root(root),
        host,
    })
}

// Lent lengths of disk and stage: whether the host is sound, as a number.
fn sound(item: &[u8], host: Host, disk: &[u8], stage: &[u8]) -> Option<Made> {
    Some(
        match machine::sound(host, lent(item, 1, disk)?, lent(item, 9, stage)?) {
            Ok(sound) => answered(0, u64::from(sound), 0, host),
            Err(why) => refused(why, host),
        },
    )
}

// Root: where the sector with it is, as numbers.
fn locate(item: &[u8], host: Host) -> Option<Made> {
    let (number, found) = match machine::locate(host, bytes(item, 1)?) {
        Ok(found) => (0, found),
        Err(why) => (why.number(), None),
    };
    let (place, position, staged) = match found {
        Some(at) => (at.place, at.position, at.staged),
        None => (0, 0, false),
    };
    Some(Made {
        number,
        tally: u64::from(found.is_some()),
        growth: 0,
        behind: Behind::Place {
            place,
            position,
            staged,
        },
        host,
    })
}

// ---- the checker

// Root, count, first, end, length of the segments' bytes, length of these and the hashes, and both. Of more than PROOF bytes the answer is
// no.
fn check(item: &[u8], host: Host) -> Option<Made> {
    let root = bytes(item, 1)?;
    let count = number(item, 33)? as usize;
    let first = number(item, 41)? as usize;
    let end = number(item, 49)? as usize;
    let data = number(item, 57)? as usize;
    let proof = item.get(73..)?;
    if PROOF < proof.len() {
        return Some(answered(0, 0, 0, host));
    }
    let (segments, hashes) = proof.split_at_checked(data)?;
    let yes = tree::check(&root, count, first, end, segments, hashes);
    Some(answered(u64::from(yes), 0, 0, host))
}

// ---- damage

// Field, i, j, value.
fn poke(item: &[u8], host: Host) -> Option<Made> {
    let field = number(item, 1)?;
    let i = number(item, 9)?;
    let j = number(item, 17)?;
    let value = number(item, 25)?;
    if !script_damage::fits(field, i, j, value) {
        return None;
    }
    let after = script_damage::poked(host, field, i, j, value);
    Some(answered(0, 0, 0, after))
}
