// RFC 7693, Appendix E: the digest of the digests of 24 messages, each hashed without and with a key.
ghost use Rattle.std.specs.Prelude.{◌≤◌, length, IfOk};

use blake2b::LengthError;

// blake2b_res of the RFC.
#[rattlefmt::skip]
const GRAND: [u8; 32] = [
    0xC2, 0x3A, 0x78, 0x00, 0xD9, 0x81, 0x23, 0xBD, 0x10, 0xF5, 0x06, 0xC6, 0x1E, 0x29, 0xDA, 0x56,
    0x03, 0xD7, 0x63, 0xB8, 0xBB, 0xAD, 0x2E, 0x73, 0x7F, 0x5E, 0x76, 0x5A, 0x7B, 0xCC, 0xD4, 0x75,
];

pub fn passes() -> bool {
    let mut all = [0; 1968];
    grand_digest(&mut all) == Ok(GRAND)
}

// The digest of the digests of all lengths, put one behind the other.
fn grand_digest(all: &mut [u8]) -> Result<[u8; 32], LengthError> {
    let mut at = 0;
    for nn in [20, 32, 48, 64] {
        at = of_length(all, at, nn)?;
    }
    let mut out = [0; 32];
    blake2b::digest(b"", &all[..at], &mut out)?;
    Ok(out)
}

// The digests of nn bytes, put behind the first `at` of all; answers where they end.
fn of_length(all: &mut [u8], at: usize, nn: usize) -> Result<usize, LengthError>
    requires { (at ≤ length all.old) × (nn ≤ 64) }
    ensures { IfOk result (λ end. end ≤ length all.new) }
{
    let mut end = at;
    for ll in [0, 3, 128, 129, 255, 1024] {
        end = pair(all, end, nn, ll)?;
    }
    Ok(end)
}

// The digest of the message of ll bytes, without and with a key; answers as `of_length`.
fn pair(all: &mut [u8], at: usize, nn: usize, ll: usize) -> Result<usize, LengthError>
    requires { (at ≤ length all.old) × (nn ≤ 64) × (ll ≤ 1024) }
    ensures { IfOk result (λ end. end ≤ length all.new) }
{
    if all.len() - at < 2 * nn {
        return Ok(at);
    }
    let mut key = [0; 64];
    let mut message = [0; 1024];
    sequence(&mut message[..ll], ll as u32);
    sequence(&mut key[..nn], nn as u32);
    let mid = at + nn;
    let end = mid + nn;
    blake2b::digest(b"", &message[..ll], &mut all[at..mid])?;
    blake2b::digest(&key[..nn], &message[..ll], &mut all[mid..end])?;
    Ok(end)
}

// The RFC's deterministic sequence: Fibonacci numbers of 32 bits, the upper byte of each.
fn sequence(out: &mut [u8], seed: u32) {
    let mut a = 0xDEAD4BADu32.wrapping_mul(seed);
    let mut b = 1u32;
    for byte in out.iter_mut() {
        let t = a.wrapping_add(b);
        a = b;
        b = t;
        *byte = (t >> 24) as u8;
    }
}
