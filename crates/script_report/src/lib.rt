// The bytes of a report on an item of a script: the answer, the host, and digests of the whole areas and of the kept roots. Each function
// writes from `at` on, and answers where it ended. Rests on `host` and `blake2b`. An inner crate: its caller proves what it requires.
#![tactic(auto)]

ghost use Rattle.std.specs.Prelude.{◌≡◌, ◌+◌, ◌*◌, ◌≤◌, length};

use host::{Host, Place, Program};

// What an item answered, and the host that it left. Of `reached` the size stands for the tally, of `sound` and `locate` yes or no.
// Kept: a refusal is a number here, since the report shows it in the eight bytes in which any answer stands.
// Kept: `Clone` and `Copy` alone, here and below: nothing compares or prints these.
#[derive(Clone, Copy)]
pub struct Made {
    pub number: u64,
    pub tally: u64,
    pub growth: i64,
    pub behind: Behind,
    pub host: Host,
}

// What is shown behind the three numbers: the root of `reached`, and where `locate` found a sector.
#[derive(Clone, Copy)]
pub enum Behind {
    Nothing,
    Root([u8; 32]),
    Place {
        place: u64,
        position: u64,
        staged: bool,
    },
}

// A report at the front of an area; answers its length.
#[rattlefmt::skip]
pub fn write(made: Made, disk: &[u8], stage: &[u8], input: &[u8], output: &[u8], report: &mut [u8]) -> usize
    requires { 5320 ≤ length report.old }
    ensures { result ≤ 5320 }
{
    let host = made.host;
    let at = answer(made, report);
    let at = whole_host(&host, report, at);
    digest(disk, report, at);
    digest(stage, report, at + 32);
    digest(input, report, at + 64);
    digest(output, report, at + 96);
    digest(&host.diskroots, report, at + 128);
    digest(&host.stageroots, report, at + 160);
    at + 192
}

// Each number in eight bytes.
fn numbers(report: &mut [u8], at: usize, list: &[u64]) -> usize
    requires { at + 8 * length list.now ≤ length report.old }
    ensures { result ≡ at + 8 * length list.now }
{
    for (place, n) in report[at..].chunks_exact_mut(8).zip(list) {
        place.copy_from_slice(&n.to_le_bytes());
    }
    at + 8 * list.len()
}

// Number, tally and growth, and what is shown behind them, at most 32 bytes.
fn answer(made: Made, report: &mut [u8]) -> usize
    requires { 56 ≤ length report.old }
    ensures { result ≤ 56 }
{
    let growth = made.growth.cast_unsigned();
    let at = numbers(report, 0, &[made.number, made.tally, growth]);
    match made.behind {
        Behind::Nothing => at,
        Behind::Root(root) => bytes(report, at, &root),
        Behind::Place {
            place,
            position,
            staged,
        } => numbers(report, at, &[place, position, u64::from(staged)]),
    }
}

// The 32 bytes of an id or a root.
fn bytes(report: &mut [u8], at: usize, b: &[u8; 32]) -> usize
    requires { at + 32 ≤ length report.old }
    ensures { result ≡ at + 32 }
{
    report[at..at + 32].copy_from_slice(b);
    at + 32
}

fn whole_host(host: &Host, report: &mut [u8], at: usize) -> usize
    requires { at + 5072 ≤ length report.old }
    ensures { result ≤ at + 5072 }
{
    let mut end = numbers(report, at, &[host.sector, host.disk, host.stage]);
    for p in &host.places {
        end = place(host.sector, p, report, end);
    }
    program(&host.program, report, end)
}

// 0, or 1 with id, size, and the slots of its positions, of z bytes each.
fn place(z: u64, p: &Place, report: &mut [u8], at: usize) -> usize
    requires { at + 560 ≤ length report.old }
    ensures { result ≤ at + 560 }
{
    let at = numbers(report, at, &[u64::from(p.held)]);
    if !p.held {
        return at;
    }
    let at = bytes(report, at, &p.id);
    let at = numbers(report, at, &[p.size]);
    slots(&p.slots[0..positions(z, p.size)], report, at)
}

// The positions of a size, at most as many as a place has slots; none where a sector has no bytes.
fn positions(z: u64, size: u64) -> usize
    ensures { result ≤ 64 }
{
    if z == 0 {
        return 0;
    }
    host::sectors(z, size)
}

// Slots, at most 64.
fn slots(list: &[u8], report: &mut [u8], at: usize) -> usize
    requires few { length list.now ≤ 64 }
    requires room { at + 512 ≤ length report.old }
    ensures { result ≤ at + 512 }
{
    let mut end = at;
    for slot in list {
        end = numbers(report, end, &[u64::from(*slot)]);
    }
    end
}

// 0, or 1 with came, ran, tally, written, failed, running size, and the staged slots.
fn program(p: &Program, report: &mut [u8], at: usize) -> usize
    requires { at + 568 ≤ length report.old }
    ensures { result ≤ at + 568 }
{
    let at = numbers(report, at, &[u64::from(p.active)]);
    if !p.active {
        return at;
    }
    let q = p.progress;
    let at = numbers(
        report,
        at,
        &[
            p.came,
            q.ran,
            q.tally,
            q.written,
            u64::from(q.failed),
            q.size,
        ],
    );
    slots(&q.staged, report, at)
}

// The 32-byte digest of an area.
fn digest(area: &[u8], report: &mut [u8], at: usize)
    requires { at + 32 ≤ length report.old }
{
    blake2b::digest(b"", area, &mut report[at..at + 32]).unwrap();
}
