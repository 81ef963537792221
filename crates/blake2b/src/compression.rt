// (2.4, 2.6, 3.2) The compression function F, and its parts: the words of a block, the local vector, the new state.
ghost use Rattle.std.specs.Prelude.{◌≡◌, Bool, length};
ghost use Rattle.blake2b.specs.Compression as RFC;

use crate::rounds::rounds;

// (2.6) The initialization vector.
#[rattlefmt::skip]
pub const IV: [u64; 8] = [
    0x6A09E667F3BCC908, 0xBB67AE8584CAA73B, 0x3C6EF372FE94F82B, 0xA54FF53A5F1D36F1,
    0x510E527FADE682D1, 0x9B05688C2B3E6C1F, 0x1F83D9ABFB41BD6B, 0x5BE0CD19137E2179,
];

// The counter's upper word is 0: no slice has 2^64 bytes.
#[rattlefmt::skip]
pub fn local(h: &[u64; 8], t: u64, last: bool) -> [u64; 16]
    ensures { result ≡ RFC.local h.now t last }
{
    let mut v = [
        h[0], h[1], h[2], h[3], h[4], h[5], h[6], h[7],
        IV[0], IV[1], IV[2], IV[3], IV[4], IV[5], IV[6], IV[7],
    ];
    v[12] ^= t;
    if last {
        v[14] ^= 0xFFFF_FFFF_FFFF_FFFF;
    }
    v
}

pub fn folded(h: &[u64; 8], v: &[u64; 16]) -> [u64; 8]
    ensures { result ≡ RFC.folded h.now v.now }
{
    [
        h[0] ^ v[0] ^ v[8],
        h[1] ^ v[1] ^ v[9],
        h[2] ^ v[2] ^ v[10],
        h[3] ^ v[3] ^ v[11],
        h[4] ^ v[4] ^ v[12],
        h[5] ^ v[5] ^ v[13],
        h[6] ^ v[6] ^ v[14],
        h[7] ^ v[7] ^ v[15],
    ]
}

pub fn words(b: &[u8]) -> [u64; 16]
    requires { length b.now ≡ 128 }
    ensures { result ≡ RFC.words b.now }
{
    let mut m = [0; 16];
    for (i, word) in m.iter_mut().enumerate() {
        *word = area::load(b, 8 * i);
    }
    m
}

// Takes the state past a block of the words m, at the counter t.
pub fn compress(h: &mut [u64; 8], m: &[u64; 16], t: u64, last: bool)
    ensures { h.new ≡ RFC.F h.old m.now t last }
{
    let mut v = local(h, t, last);
    rounds::<false>(m, &mut v);
    *h = folded(h, &v);
}
