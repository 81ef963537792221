// Standard output: bytes in hexadecimal, to the writer that the caller hands in. A write that fails ends the call with its error; bytes ahead
// of those that failed may be out then.
#![tactic(auto)]

ghost use Rattle.std.specs.Prelude.{◌<◌};

use std::io;
use std::io::Write;

// Each byte as two digits.
pub fn hex<W: Write>(out: &mut W, bytes: &[u8]) -> io::Result<()> {
    // Kept: no heap. Up to 64 bytes' digits wait in an array with a count, so that one write takes them.
    let mut digits = [0; 128];
    let mut held = 0;
    for &byte in bytes {
        if held == digits.len() {
            out.write_all(&digits)?;
            held = 0;
        }
        digits[held] = digit(byte / 16);
        digits[held + 1] = digit(byte % 16);
        held += 2;
    }
    out.write_all(&digits[..held])
}

// A digit below 16, as a letter from ten on.
fn digit(x: u8) -> u8
    requires { x < 16 }
{
    if x < 10 { b'0' + x } else { b'a' + (x - 10) }
}
