// (3.3) The data in blocks: padding, the key's block, the message's blocks, and the digest's bytes.
ghost use Rattle.std.specs.Prelude.{◌≡◌, ◌≤◌, length, take};
ghost use Rattle.blake2b.specs.Blake2b as RFC;

use crate::compression::{IV, compress, words};

// The state at the start, for a digest of nn bytes and a key of kk.
pub fn start(nn: u64, kk: u64) -> [u64; 8]
    requires { kk ≤ 64 }
    ensures { result ≡ RFC.start nn kk }
{
    let mut h = IV;
    h[0] = h[0] ^ 0x0101_0000 ^ (kk * 256) ^ nn;
    h
}

fn padded(bs: &[u8]) -> [u8; 128]
    requires { length bs.now ≤ 128 }
    ensures { result ≡ RFC.padded bs.now }
{
    let mut b = [0; 128];
    area::copy_between(bs, 0, &mut b, 0, bs.len());
    b
}

// Takes the state past the message, where t bytes came before it.
fn absorb(h: &mut [u64; 8], message: &[u8], t: u64)
    requires { t ≤ 128 }
    ensures { h.new ≡ RFC.absorbed (RFC.before message.now) t message.now h.old }
{
    let before = message.len().saturating_sub(1) / 128;
    for i in 0..before {
        let end = 128 * i + 128;
        compress(h, &words(&message[128 * i..end]), t + end as u64, false);
    }
    let last = padded(&message[128 * before..]);
    compress(h, &words(&last), t + message.len() as u64, true);
}

// Takes the state past the key's block, where there is a key, and the message.
pub fn finish(h: &mut [u64; 8], key: &[u8], message: &[u8])
    requires { length key.now ≤ 64 }
    ensures { h.new ≡ RFC.finished (RFC.keyed key.now message.now) h.old }
{
    if key.len() == 0 {
        absorb(h, message, 0);
        return;
    }
    let k = padded(key);
    if message.len() == 0 {
        compress(h, &words(&k), 128, true);
        return;
    }
    compress(h, &words(&k), 128, false);
    absorb(h, message, 128);
}

// As many of the state's bytes as the area has.
pub fn write(h: &[u64; 8], out: &mut [u8])
    requires { length out.old ≤ 64 }
    ensures { out.new ≡ take (length out.old) (RFC.bytes h.now) }
{
    let mut all = [0; 64];
    for (i, word) in h.iter().enumerate() {
        area::store(&mut all, 8 * i, 8, *word);
    }
    let n = out.len();
    area::copy_between(&all, 0, out, 0, n);
}
