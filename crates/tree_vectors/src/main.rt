// Roots and proofs of segments whose bytes are set by their place, written out for comparison with `expected/main.go`, which makes the same
// lines by another implementation; and damaged proofs, which the checker refuses: each has the bytes and hashes that the walk for its count
// and range wants, but for the one thing that its line names.
#![tactic(auto)]

ghost use Rattle.std.specs.Prelude.{◌*◌, ◌<◌, ◌≤◌, length};

use std::io;
use std::io::{Read, Write};
use stdout::hex;

// The bytes of 4,097 segments.
const BYTES: usize = 262_208;

// The bytes of the area that takes proofs.
const AREA: usize = 4096;

// The counts of segments whose roots and proofs are written.
const COUNTS: [usize; 12] = [1, 2, 3, 5, 7, 64, 65, 128, 192, 200, 320, 4096];

// A range of the segments of one part among several of 64.
#[derive(Clone, Copy)]
struct Within {
    parts: usize,
    at: usize,
    first: usize,
    end: usize,
}

// Those whose proofs are written.
#[rattlefmt::skip]
const WITHINS: [Within; 6] = [
    Within { parts: 1, at: 0, first: 0, end: 1 },
    Within { parts: 2, at: 1, first: 0, end: 64 },
    Within { parts: 3, at: 2, first: 0, end: 1 },
    Within { parts: 3, at: 0, first: 63, end: 64 },
    Within { parts: 5, at: 3, first: 10, end: 20 },
    Within { parts: 5, at: 4, first: 0, end: 64 },
];

// What is given to the checker: a count, a range of it, and so many bytes of a root, of segments and of hashes.
#[derive(Clone, Copy)]
struct Given {
    count: usize,
    first: usize,
    end: usize,
    root: usize,
    segments: usize,
    hashes: usize,
}

impl Given {
    // A whole root and two segments of 200, the range from 63 up to 65.
    #[rattlefmt::skip]
    fn whole(hashes: usize) -> Given {
        Given { count: 200, first: 63, end: 65, root: 32, segments: 128, hashes }
    }
}

fn fill(bytes: &mut [u8]) {
    for (k, byte) in bytes.iter_mut().enumerate() {
        *byte = ((k % 251 + k / 64 % 241) % 256) as u8;
    }
}

// The root of the first n segments.
fn root(bytes: &[u8], n: usize) -> [u8; 32]
    requires { 64 * n ≤ length bytes.now }
{
    tree::root(&bytes[..64 * n]).unwrap()
}

fn root_line(sink: &mut impl Write, bytes: &[u8], n: usize) -> io::Result<()> {
    if bytes.len() / 64 < n {
        return Ok(());
    }
    write!(sink, "root {n} ")?;
    hex(sink, &root(bytes, n))?;
    writeln!(sink)
}

// What the checker says to the segments of the range and to hashes, against the root of n segments.
fn checked(bytes: &[u8], n: usize, first: usize, end: usize, hashes: &[u8]) -> bool {
    if bytes.len() / 64 < n || n < end || end < first {
        return false;
    }
    let range = &bytes[64 * first..64 * end];
    tree::check(&root(bytes, n), n, first, end, range, hashes)
}

fn verdict(yes: bool) -> &'static str {
    if yes { "yes" } else { "no" }
}

// The proof of a range, and what the checker says to it.
fn range_line(
    sink: &mut impl Write,
    bytes: &[u8],
    n: usize,
    first: usize,
    end: usize,
    out: &mut [u8],
) -> io::Result<()> {
    if bytes.len() / 64 < n {
        return Ok(());
    }
    let count = tree::prove(&bytes[..64 * n], first, end, out).unwrap_or(0);
    if out.len() / 32 < count {
        return Ok(());
    }
    let hashes = &out[..32 * count];
    write!(sink, "range {n} {first} {end} {count} ")?;
    hex(sink, hashes)?;
    let said = verdict(checked(bytes, n, first, end, hashes));
    writeln!(sink, " {said}")
}

// Ranges at both ends, whole and half, and at the edges of parts of 64.
fn ranges(sink: &mut impl Write, bytes: &[u8], n: usize, out: &mut [u8]) -> io::Result<()> {
    for (first, end) in [(0, 1), (n.saturating_sub(1), n), (0, n), (n / 2, n)] {
        range_line(sink, bytes, n, first, end, out)?;
    }
    if n < 65 {
        return Ok(());
    }
    range_line(sink, bytes, n, 63, 65, out)?;
    if n < 129 {
        return Ok(());
    }
    range_line(sink, bytes, n, 128, 129, out)?;
    range_line(sink, bytes, n, 64, 128, out)
}

// The roots of the parts of 64 segments, as many as there is room for.
fn part_roots(bytes: &[u8], roots: &mut [u8]) {
    for (part, root) in bytes.chunks_exact(4096).zip(roots.chunks_exact_mut(32)) {
        if let Ok(known) = tree::root(part) {
            root.copy_from_slice(&known);
        }
    }
}

// The root over the parts, and the proof of a range of one of them.
fn within_line(
    sink: &mut impl Write,
    bytes: &[u8],
    roots: &[u8],
    within: Within,
    out: &mut [u8],
) -> io::Result<()> {
    let Within {
        parts,
        at,
        first,
        end,
    } = within;
    if roots.len() / 32 < parts || bytes.len() / 4096 <= at {
        return Ok(());
    }
    let roots = &roots[..32 * parts];
    let part = &bytes[4096 * at..4096 * (at + 1)];
    let count = tree::prove_in(roots, at, part, first, end, out).unwrap_or(0);
    if out.len() / 32 < count {
        return Ok(());
    }
    write!(sink, "within {parts} {at} {first} {end} ")?;
    hex(sink, &tree::join(roots).unwrap())?;
    write!(sink, " ")?;
    hex(sink, &out[..32 * count])?;
    writeln!(sink)
}

// What the checker says to what stands in `all`: of a root from byte 0 on, of two segments from byte 32 on, and of hashes from byte 160 on;
// None where so many bytes do not stand there.
fn taken(all: &[u8], given: Given) -> Option<bool> {
    let (front, hashes) = all.split_at_checked(160)?;
    let (root, segments) = front.split_at(32);
    let root = root.get(..given.root)?;
    let segments = segments.get(..given.segments)?;
    let hashes = hashes.get(..given.hashes)?;
    Some(tree::check(root, given.count, given.first, given.end, segments, hashes))
}

// Whether the checker says no with a bit of byte k flipped, which is set back.
fn refuses_flipped(all: &mut [u8], k: usize, given: Given) -> bool
    requires { k < length all.old }
{
    all[k] ^= 1;
    let said = taken(all, given);
    all[k] ^= 1;
    said == Some(false)
}

// With a bit flipped in each of the first bytes in turn: how often the checker does not say no.
fn flipped(all: &mut [u8], total: usize, given: Given) -> usize
    requires { total ≤ length all.old }
{
    let mut times = 0;
    for k in 0..total {
        if !refuses_flipped(all, k, given) {
            times += 1;
        }
    }
    times
}

// What is given to the checker, and what it says.
fn given_line(sink: &mut impl Write, words: &str, all: &[u8], given: Given) -> io::Result<()> {
    let Given {
        count,
        first,
        end,
        root,
        segments,
        hashes,
    } = given;
    let whole = hashes / 32;
    write!(
        sink,
        "{words}: count {count}, range {first} {end}, root bytes {root}, segment bytes {segments}, "
    )?;
    write!(sink, "hashes {whole}, hash bytes {hashes}: ")?;
    match taken(all, given) {
        None => writeln!(sink, "not laid"),
        Some(yes) => writeln!(sink, "{}", verdict(yes)),
    }
}

// A proof of the segments from 63 up to 65 of 200, and with one thing changed at a time.
#[rattlefmt::skip]
fn damaged(sink: &mut impl Write, bytes: &[u8; BYTES], all: &mut [u8; AREA]) -> io::Result<()> {
    let hashes = lay(bytes, 200, 63, 65, all);
    let whole = Given::whole(hashes);
    given_line(sink, "whole", all, whole)?;
    let times = flipped(all, 160 + hashes, whole);
    writeln!(sink, "a bit flipped in each byte in turn: not refused {times}")?;
    if hashes < 32 {
        return Ok(());
    }
    given_line(sink, "one hash more", all, Given { hashes: hashes + 32, ..whole })?;
    given_line(sink, "one hash fewer", all, Given { hashes: hashes - 32, ..whole })?;
    given_line(sink, "a hash of 31 bytes", all, Given { hashes: hashes - 1, ..whole })?;
    given_line(sink, "a root of 31 bytes", all, Given { root: 31, ..whole })?;
    given_line(sink, "one segment fewer", all, Given { segments: 64, ..whole })
}

// The range ends one past the count: the walk comes to the one segment of it that there is, and rebuilds the root.
#[rattlefmt::skip]
fn passed(sink: &mut impl Write, bytes: &[u8; BYTES], all: &mut [u8; AREA]) -> io::Result<()> {
    let hashes = lay(bytes, 200, 199, 200, all);
    let last = Given { count: 200, first: 199, end: 200, root: 32, segments: 64, hashes };
    given_line(sink, "whole", all, last)?;
    given_line(sink, "range past the count", all, Given { end: 201, segments: 128, ..last })
}

// A full tree, and one segment more, each with the root and the proof of that many segments.
#[rattlefmt::skip]
fn wholes(sink: &mut impl Write, bytes: &[u8; BYTES], all: &mut [u8; AREA]) -> io::Result<()> {
    let hashes = lay(bytes, 4096, 4094, 4096, all);
    let most = Given { count: 4096, first: 4094, end: 4096, root: 32, segments: 128, hashes };
    given_line(sink, "count 4096", all, most)?;
    let hashes = lay(bytes, 4097, 4095, 4097, all);
    let over = Given { count: 4097, first: 4095, end: 4097, root: 32, segments: 128, hashes };
    given_line(sink, "count 4097", all, over)
}

// The area takes from standard input a root, a segment, and a proof of so many bytes. Whether all of it came.
fn comes(source: &mut impl Read, all: &mut [u8], hashes: usize) -> io::Result<bool> {
    if all.len() < 160 || all.len() - 160 < hashes {
        return Ok(false);
    }
    let front = stdin::full(source, &mut all[0..96])?;
    let total = 160 + hashes;
    let proof = stdin::full(source, &mut all[160..total])?;
    Ok(front == 96 && proof == hashes)
}

// One segment among 4,194,304, the largest count, and among one more, each with the root and the proof of that many segments
// (make_large.py).
#[rattlefmt::skip]
fn limits(source: &mut impl Read, sink: &mut impl Write, all: &mut [u8; AREA]) -> io::Result<()> {
    for (words, count, hashes) in [
        ("count 4194304", 4_194_304, 704),
        ("count 4194305", 4_194_305, 736),
    ] {
        if comes(source, all, hashes)? {
            let given = Given { count, first: 2_718_281, end: 2_718_282, root: 32, segments: 64, hashes };
            given_line(sink, words, all, given)?;
        }
    }
    Ok(())
}

// Where the walk asks for one hash in place of the whole tree, and that hash is the root.
#[rattlefmt::skip]
fn tops(sink: &mut impl Write, bytes: &[u8; BYTES], all: &mut [u8; AREA]) -> io::Result<()> {
    lay_top(bytes, all);
    let empty = Given { count: 200, first: 0, end: 0, root: 32, segments: 0, hashes: 32 };
    given_line(sink, "empty range", all, empty)?;
    given_line(sink, "range swapped", all, Given { first: 1, ..empty })?;
    given_line(sink, "count 0", all, Given { count: 0, end: 1, segments: 64, ..empty })
}

// The area takes the root of the first n segments, the two segments from `first` on, and the proof of `first` up to `end`. Answers how many
// bytes the proof has.
fn lay(bytes: &[u8; BYTES], n: usize, first: usize, end: usize, all: &mut [u8; AREA]) -> usize
    requires all { n ≤ 4097 }
    requires two { first ≤ 4095 }
    ensures { result ≤ 1024 }
{
    all[..32].copy_from_slice(&root(bytes, n));
    all[32..160].copy_from_slice(&bytes[64 * first..64 * first + 128]);
    let count = tree::prove(&bytes[..64 * n], first, end, &mut all[160..]).unwrap_or(0);
    if 32 < count {
        return 0;
    }
    32 * count
}

// The area takes the root of 200 segments, the first two of them, and the root again for a hash.
fn lay_top(bytes: &[u8; BYTES], all: &mut [u8; AREA]) {
    let root = root(bytes, 200);
    all[..32].copy_from_slice(&root);
    all[32..160].copy_from_slice(&bytes[..128]);
    all[160..192].copy_from_slice(&root);
}

fn main(rt: HostRuntime) -> io::Result<()> {
    let mut source = rt.stdin();
    let mut sink = rt.stdout();
    let mut bytes = [0; BYTES];
    let mut roots = [0; 2048];
    let mut out = [0; AREA];
    fill(&mut bytes);
    for n in COUNTS {
        root_line(&mut sink, &bytes, n)?;
        ranges(&mut sink, &bytes, n, &mut out)?;
    }
    part_roots(&bytes, &mut roots);
    for within in WITHINS {
        within_line(&mut sink, &bytes, &roots, within, &mut out)?;
    }
    damaged(&mut sink, &bytes, &mut out)?;
    passed(&mut sink, &bytes, &mut out)?;
    wholes(&mut sink, &bytes, &mut out)?;
    limits(&mut source, &mut sink, &mut out)?;
    tops(&mut sink, &bytes, &mut out)
}
