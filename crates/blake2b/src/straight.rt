// The straight path of what the tree hashes, a leaf or a node: a message of 65 bytes, without a key, to a digest of 32. It is one block,
// so its words are read where they stand and F is taken once.
ghost use Rattle.std.specs.Prelude.{◌≡◌, length, take, ◌==◌};
ghost use Rattle.lists.specs.Pick.{both};
ghost use Rattle.blake2b.specs.Compression.{words};
ghost use Rattle.blake2b.specs.Blake2b as RFC;

use crate::compression::{folded, local};
use crate::data::{start, write};
use crate::rounds::rounds;

// Whether a digest of nn bytes, under a key of kk, of a message of ll goes this way.
pub fn applies(nn: usize, kk: usize, ll: usize) -> bool
    ensures { result ≡ both (nn == 32) (both (kk == 0) (ll == 65)) }
{
    nn == 32 && kk == 0 && ll == 65
}

// The words of the message's block: eight that it fills, one that its last byte begins, seven of zeros.
#[rattlefmt::skip]
fn block(message: &[u8]) -> [u64; 16]
    requires { length message.now ≡ 65 }
    ensures { result ≡ words (RFC.padded message.now) }
{
    [
        area::load(message, 0), area::load(message, 8), area::load(message, 16), area::load(message, 24),
        area::load(message, 32), area::load(message, 40), area::load(message, 48), area::load(message, 56),
        u64::from(message[64]), 0, 0, 0,
        0, 0, 0, 0,
    ]
}

// The state at the end.
fn state(message: &[u8]) -> [u64; 8]
    requires { length message.now ≡ 65 }
    ensures { result ≡ RFC.finished message.now (RFC.start 32 0) }
{
    let h = start(32, 0);
    let mut v = local(&h, 65, true);
    rounds::<true>(&block(message), &mut v);
    folded(&h, &v)
}

// The digest, over all of the area.
pub fn digest(message: &[u8], out: &mut [u8])
    requires message_len { length message.now ≡ 65 }
    requires out_len { length out.old ≡ 32 }
    ensures { out.new ≡ take 32 (RFC.bytes (RFC.finished message.now (RFC.start 32 0))) }
{
    write(&state(message), out);
}
