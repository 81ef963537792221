// Records: the bytes that an instruction leaves in the output area. Each writer lays its bytes over the front of the part that it is lent.
// These are inner functions: what they require, their callers prove.
ghost use Rattle.std.specs.Prelude.{◌≡◌, true, [], ◌≤◌, length};
ghost use Rattle.lists.specs.Pick.{pick};
ghost use Rattle.area.specs.Area.{put};
ghost use Rattle.machine_rules.specs.Record.{pairing, record_bytes};
ghost use Rattle.machine_sight.specs.Seen.{Lies, Known, Inside, Ranged};
ghost use Rattle.machine_step.specs.Front.{front};
ghost use Rattle.machine_step.specs.Shown.{Shows};
ghost use Rattle.machine_step.specs.Told.{proof_of, bytes_of};

use machine_sight::Seen;

// The first 64 bytes: number, cost, size, root and the count of hashes.
fn put_front(number: u64, cost: u64, size: u64, root: [u8; 32], hashes: u64, out: &mut [u8])
    requires { 64 ≤ length out.old }
    ensures { out.new ≡ put out.old 0 (front number cost (pairing size root) hashes) }
{
    area::store(out, 0, 8, number);
    area::store(out, 8, 8, cost);
    area::store(out, 16, 8, size);
    area::copy_between(&root, 0, out, 24, 32);
    area::store(out, 56, 8, hashes);
}

// The record of a failure: cost 0, both counts 0.
pub fn put_failure(number: u64, size: u64, root: [u8; 32], out: &mut [u8])
    requires { 72 ≤ length out.old }
    ensures { out.new ≡ put out.old 0 (record_bytes number 0 (pairing size root) 0 [] 0 []) }
{
    put_front(number, 0, size, root, 0, out);
    area::store(out, 64, 8, 0);
}

// What a record shows: the n bytes from `at` on of the sectors seen, with their proof where one is asked, themselves where they are read.
#[derive(Clone, Copy)]
pub struct Shown<'a> {
    pub sector: usize,
    pub asked: bool,
    pub reads: bool,
    pub diskroots: &'a [u8],
    pub stageroots: &'a [u8],
    pub disk: &'a [u8],
    pub stage: &'a [u8],
    pub seen: Seen,
    pub at: usize,
    pub n: usize,
}

// The proof of what is read, where one is asked.
#[rattlefmt::skip]
fn put_proof(shown: &Shown, out: &mut [u8])
    requires known { Known shown.now.diskroots.now shown.now.stageroots.now shown.now.seen }
    requires lies { Lies shown.now.sector shown.now.disk.now shown.now.stage.now shown.now.seen }
    requires ranged { shown.now.asked ≡ true → Ranged shown.now.sector shown.now.seen.count shown.now.at shown.now.n }
    requires n_in_bounds { length (proof_of shown.now) ≤ length out.old }
    ensures { out.new ≡ put out.old 0 (proof_of shown.now) }
{
    if shown.asked {
        machine_sight::range_proof(
            shown.sector, shown.diskroots, shown.stageroots, shown.disk, shown.stage, shown.seen, shown.at, shown.n, out
        );
    }
}

// The bytes of what is read.
fn put_bytes(shown: &Shown, out: &mut [u8])
    requires lies { Lies shown.now.sector shown.now.disk.now shown.now.stage.now shown.now.seen }
    requires inside { shown.now.reads ≡ true → Inside shown.now.sector shown.now.seen.count shown.now.at shown.now.n }
    requires n_in_bounds { pick shown.now.reads shown.now.n 0 ≤ length out.old }
    ensures { out.new ≡ put out.old 0 (bytes_of shown.now) }
{
    if shown.reads {
        let bytes = machine_sight::span(
            shown.sector,
            shown.disk,
            shown.stage,
            shown.seen,
            shown.at,
            shown.n,
        );
        area::copy_between(bytes, 0, out, 0, shown.n);
    }
}

// How many bytes are handed out.
fn count_of(reads: bool, n: usize) -> u64
    ensures { result ≡ pick reads n 0 }
{
    if reads { n as u64 } else { 0 }
}

// The record of an instruction that ran: the remainder behind its front is lent on to the writer of hashes, and behind them that of bytes.
#[rattlefmt::skip]
pub fn put_success(cost: u64, size: u64, root: [u8; 32], hashes: u64, shown: &Shown, out: &mut [u8])
    requires { Shows shown.now.sector shown.now.diskroots.now shown.now.stageroots.now shown.now.disk.now shown.now.stage.now
        shown.now.seen shown.now.asked shown.now.reads shown.now.at shown.now.n hashes out.old }
    ensures { out.new ≡
        put out.old 0 (record_bytes 0 cost (pairing size root)
        hashes (proof_of shown.now) (pick shown.now.reads shown.now.n 0) (bytes_of shown.now)) }
{
    put_front(0, cost, size, root, hashes, out);
    put_proof(shown, &mut out[64..]);
    let behind = 64 + 32 * (hashes as usize);
    let count = count_of(shown.reads, shown.n);
    area::store(out, behind, 8, count);
    put_bytes(shown, &mut out[behind + 8..]);
}
