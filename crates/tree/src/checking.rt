// The checker of range proofs: the walk that wrote a proof rebuilds the root from it.
ghost use Rattle.std.specs.Prelude.{◌≡◌, false, ◌+◌, ◌*◌};
ghost use Rattle.area.specs.Area.{same};
ghost use Rattle.tree.specs.Tree.{leaf_of};
ghost use Rattle.tree.specs.Walk.{hashes};
ghost use Rattle.tree.specs.Checker.{rebuilt, verdict};
ghost use Rattle.tree.specs.Asks.{Rebuilt};

use crate::leaves::Leaves;
use crate::walks::{Below, Range, Subtree};
use crate::{asked, hashing, walks};

// What the checker takes.
// Kept: docs/DECISIONS.md and the edit takes_one_segment_more name `Checker::LIMIT`.
#[derive(Clone, Copy)]
pub struct Checker {}

impl Checker {
    // The largest count of segments.
    pub const LIMIT: usize = 4_194_304;
}

// A root rebuilt, and the byte at which the next hash stands.
#[derive(Clone, Copy)]
struct Built {
    pub root: [u8; 32],
    pub next: usize,
}

// The root over the leaves of a subtree, from the segments of the range and the hashes from byte p on.
fn rebuild(bytes: &[u8], given: &[u8], sub: Subtree, range: Range, p: usize) -> Built
    requires { Rebuilt bytes.now given.now sub.at sub.n sub.depth range.first range.end p }
    ensures { (result.next ≡ p + 32 * hashes sub.depth sub.at sub.n range.first range.end)
        × (result.root ≡ rebuilt sub.depth sub.at sub.n range.first range.end (leaf_of false bytes.now) given.now p) }
{
    if sub.outside(range) {
        let root = hashing::read(given, p);
        return Built { root, next: p + 32 };
    }
    if sub.inside(range) {
        let here = Subtree {
            at: sub.at - range.first,
            ..sub
        };
        let root = walks::over(Leaves::Segments(bytes), here);
        return Built { root, next: p };
    }
    match sub.below() {
        Below::One(low) => rebuild(bytes, given, low, range, p),
        Below::Two(left, right) => {
            let left = rebuild(bytes, given, left, range, p);
            let right = rebuild(bytes, given, right, range, left.next);
            let root = hashing::node(&left.root, &right.root);
            Built {
                root,
                next: right.next,
            }
        }
    }
}

// Whether the bytes are the segments from first up to end, of so many whose root is given, as the hashes prove: the walk rebuilds the
// root and uses up all hash bytes. A count of 0 or above the limit, or a length or a range that is not as stated: no.
#[rattlefmt::skip]
pub fn check(root: &[u8], count: usize, first: usize, end: usize, bytes: &[u8], hashes: &[u8]) -> bool
    ensures { result ≡ verdict root.now count first end bytes.now hashes.now }
{
    if count < 1 {
        return false;
    }
    if Checker::LIMIT < count {
        return false;
    }
    if !asked::ranged(count, first, end) {
        return false;
    }
    if bytes.len() != 64 * (end - first) {
        return false;
    }
    let range = Range { first, end };
    if hashes.len() != 32 * walks::count(count, range) {
        return false;
    }
    let all = Subtree { at: 0, n: count, depth: walks::depth(count) };
    let built = rebuild(bytes, hashes, all, range, 0);
    area::same(root, &built.root)
}
