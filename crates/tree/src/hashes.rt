// The hashes that prove a range, by a walk down the tree.
ghost use Rattle.std.specs.Prelude.{◌≡◌, ◌+◌, ◌*◌};
ghost use Rattle.area.specs.Area.{put};
ghost use Rattle.tree.specs.Leaves.{are_roots, bytes_of, leaf_at};
ghost use Rattle.tree.specs.Walk as Says;
ghost use Rattle.tree.specs.Walk.{hashes};
ghost use Rattle.tree.specs.Asks.{Written};

use crate::leaves::Leaves;
use crate::walks;
use crate::walks::{Below, Range, Subtree};

// Lays the hashes that prove the range, of the leaves of a subtree, over out from byte p on, and answers where they end.
fn walk(leaves: Leaves, sub: Subtree, range: Range, out: &mut [u8], p: usize) -> usize
    requires { Written (are_roots leaves) (bytes_of leaves) sub.at sub.n sub.depth range.first range.end out.old p }
    ensures { (result ≡ p + 32 * hashes sub.depth sub.at sub.n range.first range.end)
        × (out.new ≡ put out.old p (Says.walk sub.depth sub.at sub.n range.first range.end (leaf_at leaves.entry))) }
{
    if sub.outside(range) {
        let root = walks::over(leaves, sub);
        area::copy_between(&root, 0, out, p, 32);
        return p + 32;
    }
    if sub.inside(range) {
        return p;
    }
    match sub.below() {
        Below::One(low) => walk(leaves, low, range, out, p),
        Below::Two(left, right) => {
            let next = walk(leaves, left, range, out, p);
            walk(leaves, right, range, out, next)
        }
    }
}

// Lays those that prove the range of all n leaves.
pub fn write(leaves: Leaves, n: usize, range: Range, out: &mut [u8], p: usize) -> usize
    requires { Written (are_roots leaves) (bytes_of leaves) 0 n 64 range.first range.end out.old p }
    ensures { (result ≡ p + 32 * hashes 64 0 n range.first range.end)
        × (out.new ≡ put out.old p (Says.walk 64 0 n range.first range.end (leaf_at leaves.entry))) }
{
    let all = Subtree {
        at: 0,
        n,
        depth: walks::depth(n),
    };
    walk(leaves, all, range, out, p)
}
