// The tree of RFC 6962, 2.1, over 64-byte segments or over parts' 32-byte roots: roots, the proofs of ranges, of segments
// and within one part of several, and the checker of such proofs. Rests on `blake2b`'s promise.
// No call has a `requires`: lengths and ranges that are not as stated are refused with document 01's 2. The functions of the modules below
// are inner ones, and what they require their callers prove.
#![tactic(auto)]

ghost use Rattle.std.specs.Prelude.{◌≡◌, IsOkUnless};
ghost use Rattle.tree.specs.Answers.{root_given, rooted, joined, count_given, counted};
ghost use Rattle.tree.specs.declared.TreeError.TheVariants.{NotAsStated};

use std::error::Error;
use std::fmt;

mod asked; // asked.rt: whether a range or a proof can be asked
mod checking; // checking.rt: the checker
pub mod doubling; // doubling.rt: the root of zeros, by doubling
mod hashes; // hashes.rt: the hashes of a proof, written
mod hashing; // hashing.rt: the hashes of segments and nodes
mod leaves; // leaves.rt: what a tree stands over
mod parts; // parts.rt: the hashes of a proof within one part of several
mod proving; // proving.rt: the proofs of ranges
mod walks; // walks.rt: down the tree

pub use checking::{Checker, check};
use leaves::Leaves;
pub use proving::{prove, prove_in};
use walks::Range;

// Why a call is refused: either is document 01's number 2.
#[derive(Clone, Copy, Debug, PartialEq, Eq)]
pub enum TreeError {
    // Bytes that are not whole segments, roots that are not whole, or a part or a range that there is not.
    NotAsStated,
    // The hashes of the proof do not fit in the area.
    NoRoom,
}

impl fmt::Display for TreeError {
    fn fmt<W: fmt::Write>(&self, f: &mut fmt::Formatter<W>) -> fmt::Result {
        match self {
            TreeError::NotAsStated => write!(f, "a length or a range not as stated"),
            TreeError::NoRoom => write!(f, "an area with no room for the proof"),
        }
    }
}

impl Error for TreeError {}

// The root of whole segments; 2 where the bytes are not whole segments.
pub fn root(bytes: &[u8]) -> Result<[u8; 32], TreeError>
    ensures answer { root_given result ≡ rooted bytes.now }
    ensures reason { IsOkUnless result NotAsStated }
{
    Leaves::Segments(bytes).root()
}

// The root over parts, from the parts' 32-byte roots; 2 where they are not whole.
pub fn join(roots: &[u8]) -> Result<[u8; 32], TreeError>
    ensures answer { root_given result ≡ joined roots.now }
    ensures reason { IsOkUnless result NotAsStated }
{
    Leaves::Roots(roots).root()
}

// How many hashes prove the range of so many segments; 2 where first < end ≤ segments is not so.
pub fn count(segments: usize, first: usize, end: usize) -> Result<usize, TreeError>
    ensures answer { count_given result ≡ counted segments first end }
    ensures reason { IsOkUnless result NotAsStated }
{
    if !asked::ranged(segments, first, end) {
        return Err(TreeError::NotAsStated);
    }
    Ok(walks::count(segments, Range { first, end }))
}
