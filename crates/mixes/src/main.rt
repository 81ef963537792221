// Visits to one contract, each done as often as the input says: what bench/run measures. A visit opens a program under a head, gives it its
// data in one piece, and agrees to the pair that it reached, or gives up after a failure. Where the input asks for empty pieces, a program under
// the same head is opened first, given so many of them, and given up. Standard input holds the contract's id (32 bytes), the
// budget and the seven prices (8 bytes each; a price above 65,535 counts as 65,535), and then visits: how often, how many empty pieces ahead
// of each (8 bytes each), the head and the data, each after its length (8 bytes). One line is written: how many visits were done, the
// number of the first refusal if there was one, and the digests of the disk and of the records of the last visit.
#![tactic(auto)]

ghost use Rattle.std.specs.Prelude.{◌+◌, ◌≤◌, length, IfOk, IfSome};

use machine::{Host, Prices, Refusal};
use std::io;
use std::io::{Read, Write};
use stdout::hex;

// The bytes ahead of the visits.
const AHEAD: usize = 96;

// The most visits that are counted.
const MOST: u64 = 1_000_000_000;

// The four areas.
#[derive(Drop)]
struct Areas {
    disk: [u8; 262_144],
    stage: [u8; 65_536],
    input: [u8; 65_536],
    output: [u8; 65_536],
}

// What all visits are opened on.
// Kept: `Clone` and `Copy` alone, here and below: nothing compares or prints these.
#[derive(Clone, Copy)]
struct Terms {
    budget: u64,
    prices: Prices,
}

// A visit: the empty pieces ahead of it, its head and its data.
#[derive(Clone, Copy)]
struct Visit<'a> {
    empty: u64,
    head: &'a [u8],
    bytes: &'a [u8],
}

// Where the visits stand: the refusal, if there was one, the visits done, the bytes of records that the last one wrote, and the
// host.
#[derive(Clone, Copy)]
struct Course {
    refusal: Option<Refusal>,
    visits: u64,
    written: u64,
    host: Host,
}

fn main(rt: HostRuntime) -> io::Result<()> {
    let mut source = rt.stdin();
    let mut sink = rt.stdout();
    let mut front = [0u8; 96];
    let came = stdin::full(&mut source, &mut front)?;
    if came != AHEAD {
        return writeln!(&mut sink, "bytes missing ahead of the visits");
    }
    let mut areas = Areas {
        disk: [0u8; 262_144],
        stage: [0u8; 65_536],
        input: [0u8; 65_536],
        output: [0u8; 65_536],
    };
    let end = each(&mut source, formed(&front), terms_of(&front), &mut areas)?;
    show(&mut sink, end, &areas)
}

// A host of the largest areas, with the contract whose id stands in front.
fn formed(front: &[u8; 96]) -> Course {
    let mut id = [0u8; 32];
    id.copy_from_slice(&front[0..32]);
    let bare = machine::fresh(Host::LEAST, 262_144, 65_536).unwrap_or(machine::unmade());
    let (refusal, host) = match machine::form(bare, id) {
        Ok(host) => (None, host),
        Err(why) => (Some(why), bare),
    };
    Course {
        refusal,
        visits: 0,
        written: 0,
        host,
    }
}

// The budget and the prices, behind the id.
fn terms_of(front: &[u8; 96]) -> Terms {
    Terms {
        budget: area::load(front, 32),
        prices: Prices {
            init: price(front, 40),
            memory: price(front, 48),
            readbase: price(front, 56),
            readlength: price(front, 64),
            writebase: price(front, 72),
            writelength: price(front, 80),
            truncatebase: price(front, 88),
        },
    }
}

fn price(front: &[u8], at: usize) -> u16
    requires { at + 8 ≤ length front.now }
{
    u16::try_from(area::load(front, at)).unwrap_or(u16::MAX)
}

// Kept: course, terms and areas are parameters, here and below: one is answered anew, one read and one written.

// The visits of the input, up to its end or a refusal.
fn each(
    source: &mut impl Read,
    start: Course,
    terms: Terms,
    areas: &mut Areas,
) -> io::Result<Course> {
    let mut course = start;
    for _ in 0..MOST {
        let Some(after) = next(source, course, terms, areas)? else {
            break;
        };
        course = after;
        if course.refusal.is_some() {
            break;
        }
    }
    Ok(course)
}

// The next visit of the input; none where it is not whole.
fn next(
    source: &mut impl Read,
    course: Course,
    terms: Terms,
    areas: &mut Areas,
) -> io::Result<Option<Course>> {
    let Some(times) = number(source)? else {
        return Ok(None);
    };
    let Some(empty) = number(source)? else {
        return Ok(None);
    };
    let mut head = [0u8; 4096];
    let Some(h) = counted(source, &mut head)? else {
        return Ok(None);
    };
    let mut bytes = [0u8; 65_536];
    let Some(b) = counted(source, &mut bytes)? else {
        return Ok(None);
    };
    areas.stage.fill(0);
    areas.input.fill(0);
    let visit = Visit {
        empty,
        head: &head[0..h],
        bytes: &bytes[0..b],
    };
    Ok(Some(repeated(course, times, visit, terms, areas)))
}

// The next number of the input.
fn number(source: &mut impl Read) -> io::Result<Option<u64>> {
    let mut bytes = [0u8; 8];
    let came = stdin::full(source, &mut bytes)?;
    Ok((came == 8).then_some(u64::from_le_bytes(bytes)))
}

// The next length of the input, and that many bytes into the front of the area.
fn counted(source: &mut impl Read, area: &mut [u8]) -> io::Result<Option<usize>>
    ensures { IfOk result (λ o. IfSome o (λ n. n ≤ length area.old)) }
{
    let Some(n) = number(source)? else {
        return Ok(None);
    };
    let length = n as usize;
    if area.len() < length {
        return Ok(None);
    }
    let came = stdin::full(source, &mut area[0..length])?;
    Ok((came == length).then_some(length))
}

// One visit so many times, up to a refusal.
fn repeated(
    start: Course,
    times: u64,
    visit: Visit<'_>,
    terms: Terms,
    areas: &mut Areas,
) -> Course {
    let mut course = start;
    for _ in 0..times {
        if course.refusal.is_some() {
            break;
        }
        course = visited(course, visit, terms, areas);
    }
    course
}

// The empty pieces, and then the visit itself.
fn visited(course: Course, visit: Visit<'_>, terms: Terms, areas: &mut Areas) -> Course {
    let host = match visit.empty {
        0 => course.host,
        _ => idle(course.host, visit, terms, areas),
    };
    let done = bench_program::begin(
        host,
        terms.prices,
        terms.budget,
        visit.head,
        visit.bytes,
        &mut areas.disk,
        &mut areas.stage,
        &mut areas.input,
        &mut areas.output,
    );
    Course {
        refusal: done.refused,
        visits: more(course.visits, done.refused),
        written: done.written,
        host: done.host,
    }
}

// A program that is opened, given so many empty pieces, and given up; where it is refused, the visit is too.
fn idle(host: Host, visit: Visit<'_>, terms: Terms, areas: &mut Areas) -> Host {
    let room = areas.output.len() as u64;
    let start = match machine::open(host, visit.head, terms.budget, terms.prices, room) {
        Ok(opened) => opened.host,
        Err(_) => host,
    };
    let waiting = waited(start, visit.empty, areas);
    match machine::close(waiting, &mut areas.disk, &areas.stage, false, 0, [0u8; 32]) {
        Ok(closed) => closed.host,
        Err(_) => waiting,
    }
}

// So many empty pieces, as long as they are accepted.
fn waited(start: Host, empty: u64, areas: &mut Areas) -> Host {
    let n = (start.program.terms.head.length as usize).min(areas.input.len());
    let mut host = start;
    for _ in 0..empty {
        match machine::piece(
            host,
            &areas.disk,
            &mut areas.stage,
            &mut areas.input[0..n],
            &mut areas.output,
            b"",
        ) {
            Ok(taken) => host = taken.host,
            Err(_) => break,
        }
    }
    host
}

// A visit more, unless it was refused.
fn more(visits: u64, refused: Option<Refusal>) -> u64 {
    if refused.is_none() && visits < MOST {
        return visits + 1;
    }
    visits
}

// The line.
fn show(sink: &mut impl Write, end: Course, areas: &Areas) -> io::Result<()> {
    let visits = end.visits;
    write!(sink, "visits {visits}")?;
    if let Some(why) = end.refusal {
        let number = why.number();
        write!(sink, " refused {number}")?;
    }
    write!(sink, " disk ")?;
    show_digest(sink, &areas.disk)?;
    write!(sink, " records ")?;
    let n = (end.written as usize).min(areas.output.len());
    show_digest(sink, &areas.output[0..n])?;
    writeln!(sink)
}

// The digest of 32 bytes, with no key.
fn show_digest(sink: &mut impl Write, bytes: &[u8]) -> io::Result<()> {
    let mut digest = [0u8; 32];
    blake2b::digest(b"", bytes, &mut digest).unwrap();
    hex(sink, &digest)
}
