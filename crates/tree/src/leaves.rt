// What a tree stands over.
ghost use Rattle.std.specs.Prelude.{◌≡◌, ◌+◌, IsOkUnless};
ghost use Rattle.tree.specs.Answers as Answers;
ghost use Rattle.tree.specs.Answers.{root_given, root_if};
ghost use Rattle.tree.specs.Leaves as Says;
ghost use Rattle.tree.specs.Leaves.{bytes_of, width, leaf_at, root_all, Has};
ghost use Rattle.tree.specs.declared.TreeError.TheVariants.{NotAsStated};

use crate::{TreeError, hashing, walks};

// Segments of 64 bytes, each hashed to a leaf, or parts' roots of 32, which are leaves as they stand.
#[derive(Clone, Copy)]
pub enum Leaves<'a> {
    Segments(&'a [u8]),
    Roots(&'a [u8]),
}

impl<'a> Leaves<'a> {
    // Whether the last of them is whole.
    fn whole(self) -> bool
        ensures { result ≡ Answers.wholes (width self.entry) (bytes_of self.entry) }
    {
        match self {
            Leaves::Segments(bytes) => bytes.len() % 64 == 0,
            Leaves::Roots(roots) => roots.len() % 32 == 0,
        }
    }

    // How many there are.
    pub fn count(self) -> usize
        ensures { result ≡ Says.count self.entry }
    {
        match self {
            Leaves::Segments(bytes) => bytes.len() / 64,
            Leaves::Roots(roots) => roots.len() / 32,
        }
    }

    // Leaf i.
    pub fn leaf(self, i: usize) -> [u8; 32]
        requires { Has self (i + 1) }
        ensures { result ≡ leaf_at self.entry i }
    {
        match self {
            Leaves::Segments(bytes) => hashing::segment(bytes, i),
            Leaves::Roots(roots) => hashing::root(roots, i),
        }
    }

    // The root over all; 2 where the last is not whole.
    pub fn root(self) -> Result<[u8; 32], TreeError>
        ensures answer { root_given result ≡ root_if (Answers.wholes (width self.entry) (bytes_of self.entry)) (root_all self.entry) }
        ensures reason { IsOkUnless result NotAsStated }
    {
        if !self.whole() {
            return Err(TreeError::NotAsStated);
        }
        Ok(walks::root(self, self.count()))
    }
}
