// The proofs of ranges, of segments and within one part of several. No call has a `requires`: lengths and ranges that are not as stated are
// refused with document 01's 2, and nothing is written.
ghost use Rattle.std.specs.Prelude.{◌≡◌, ◌↔◌, false, IsErrOf};
ghost use Rattle.tree.specs.Answers.{left, provable, provable_in, proved, proved_in};
ghost use Rattle.tree.specs.declared.TreeError.TheVariants.{NotAsStated};

use crate::leaves::Leaves;
use crate::walks::Range;
use crate::{TreeError, asked, hashes, parts, walks};

// The proof of a range of the segments of `bytes`, written to the front of `out`; the rest of it stays. 2 where the bytes are not
// whole segments, that is no range of them, or the hashes do not fit: then nothing is written.
pub fn prove(bytes: &[u8], first: usize, end: usize, out: &mut [u8]) -> Result<usize, TreeError>
    ensures answer { left result out.new ≡ proved bytes.now first end out.old }
    ensures stated { IsErrOf result NotAsStated ↔ (provable bytes.now first end ≡ false) }
{
    if !asked::provable(bytes, first, end) {
        return Err(TreeError::NotAsStated);
    }
    let segments = bytes.len() / 64;
    let range = Range { first, end };
    let count = walks::count(segments, range);
    if out.len() / 32 < count {
        return Err(TreeError::NoRoom);
    }
    hashes::write(Leaves::Segments(bytes), segments, range, out, 0);
    Ok(count)
}

// The proof of a range of the segments of part `at`, counted within the part, in the tree over all parts, whose roots are given; the part
// is a power of two of segments, and its own root is not read. It is written to the front of `out`; the rest of it stays. 2 where the
// roots are not whole, `at` is the number of none of them, the part or the range is not as stated, or the hashes do not fit.
#[rattlefmt::skip]
pub fn prove_in(roots: &[u8], at: usize, part: &[u8], first: usize, end: usize, out: &mut [u8]) -> Result<usize, TreeError>
    ensures answer { left result out.new ≡ proved_in roots.now at part.now first end out.old }
    ensures stated { IsErrOf result NotAsStated ↔ (provable_in roots.now at part.now first end ≡ false) }
{
    if !asked::provable_in(roots, at, part, first, end) {
        return Err(TreeError::NotAsStated);
    }
    let range = Range { first, end };
    let total = parts::count(roots, at, part, range);
    if out.len() / 32 < total {
        return Err(TreeError::NoRoom);
    }
    parts::write(roots, at, part, range, out);
    Ok(total)
}
