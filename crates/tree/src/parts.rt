// The proof of a range within one part of several: the roots to the left of the part, the part's own walk, the roots to its right.
ghost use Rattle.std.specs.Prelude.{◌≡◌, ◌*◌, ◌≤◌, length};
ghost use Rattle.area.specs.Area.{put};
ghost use Rattle.tree.specs.Walk.{proof_in};
ghost use Rattle.tree.specs.Asks.{Within};

use crate::leaves::Leaves;
use crate::walks::Range;
use crate::{hashes, walks};

// How many hashes it has.
pub fn count(roots: &[u8], at: usize, part: &[u8], range: Range) -> usize
    requires { Within roots.now at part.now }
    ensures { length (proof_in roots.now at part.now range.first range.end) ≡ 32 * result }
{
    let parts = roots.len() / 32;
    let left = walks::count(
        parts,
        Range {
            first: at,
            end: parts,
        },
    );
    let own = walks::count(part.len() / 64, range);
    let right = walks::count(
        parts,
        Range {
            first: 0,
            end: at + 1,
        },
    );
    left + own + right
}

// Lays them over the front of out.
pub fn write(roots: &[u8], at: usize, part: &[u8], range: Range, out: &mut [u8])
    requires within { Within roots.now at part.now }
    requires end_in_bounds { length (proof_in roots.now at part.now range.first range.end) ≤ length out.old }
    ensures { out.new ≡ put out.old 0 (proof_in roots.now at part.now range.first range.end) }
{
    let parts = roots.len() / 32;
    let before = Range {
        first: at,
        end: parts,
    };
    let after = Range {
        first: 0,
        end: at + 1,
    };
    let own = hashes::write(Leaves::Roots(roots), parts, before, out, 0);
    let right = hashes::write(Leaves::Segments(part), part.len() / 64, range, out, own);
    hashes::write(Leaves::Roots(roots), parts, after, out, right);
}
