// The root of zeros.
ghost use Rattle.std.specs.Prelude.{◌≡◌};
ghost use Rattle.area.specs.Area.{zeros};
ghost use Rattle.area.specs.Slots.{Size};
ghost use Rattle.tree.specs.Tree as Says;

use crate::hashing;

// The root of z zeros, a sector of them, by doubling: one leaf, and one node a level.
pub fn zeros_root(z: usize) -> [u8; 32]
    requires { Size z }
    ensures { result ≡ Says.root (zeros z) }
{
    let segment = [0u8; 64];
    let mut root = hashing::segment(&segment, 0);
    for _ in 0..(z / 64).ilog2() {
        root = hashing::node(&root, &root);
    }
    root
}
