// RFC 7693 BLAKE2b, whole: a digest of 1 to 64 bytes, keyed by 0 to 64 or unkeyed, of any message. Rests on `area` for bytes and numbers in them.
#![tactic(auto)]

ghost use Rattle.std.specs.Prelude.{◌≡◌};
ghost use Rattle.blake2b.specs.Answers.{left, digested};

mod mixing; // mixing.rt: G
mod rounds; // rounds.rt: the twelve rounds
mod compression; // compression.rt: F
mod data; // data.rt: the data in blocks
mod straight; // straight.rt: the one block of a leaf or a node

use std::fmt;

// The digest or the key is of a length that BLAKE2b has not. Its number is 2, where a digest's is 0.
#[derive(Clone, Copy, Debug, PartialEq, Eq)]
pub struct LengthError;

impl fmt::Display for LengthError {
    fn fmt<W: fmt::Write>(&self, f: &mut fmt::Formatter<W>) -> fmt::Result {
        f.write_str("a digest has 1 to 64 bytes, and a key 0 to 64")
    }
}

// The digest of the message under the key, as long as the area that is lent for it. A refusal leaves the area as it was.
pub fn digest(key: &[u8], message: &[u8], out: &mut [u8]) -> Result<(), LengthError>
    ensures { left result out.new ≡ digested key.now message.now out.old }
{
    let nn = out.len();
    let kk = key.len();
    if nn < 1 || 64 < nn || 64 < kk {
        return Err(LengthError);
    }
    if straight::applies(nn, kk, message.len()) {
        straight::digest(message, out);
        return Ok(());
    }
    let mut h = data::start(nn as u64, kk as u64);
    data::finish(&mut h, key, message);
    data::write(&h, out);
    Ok(())
}
