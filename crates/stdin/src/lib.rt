// Standard input as one input that may use at most `left` bytes of it: a program that is given one input lends all that there is, and one
// whose standard input holds many inputs lends each its own length. It is read from the reader that the caller hands in. A read that fails
// ends the call with its error, and that alone: the area is as long as it was, bytes that came ahead of the error stand in it, and how
// many is not told.
#![tactic(auto)]

ghost use Rattle.std.specs.Prelude.{◌≡◌, ◌≤◌, ◌<◌, length, IfOk, MatchResult};

use std::io;
use std::io::Read;

// Reads into an area until it is full or the input ends. It answers how many bytes came.
pub fn full<R: Read>(source: &mut R, area: &mut [u8]) -> io::Result<usize>
    ensures { MatchResult result (λ n. n ≤ length area.old) (λ _. length area.new ≡ length area.old) }
{
    let mut done = 0;
    // Kept: no plainer as a `for` or a chain, since what a read gives decides how far a turn goes.
    while done < area.len() {
        let got = source.read(&mut area[done..])?;
        if got == 0 {
            break;
        }
        done += got;
    }
    Ok(done)
}

// Reads at most `left` bytes into an area, until it is full or the input ends. It answers how many came.
pub fn fill<R: Read>(source: &mut R, left: u64, area: &mut [u8]) -> io::Result<usize>
    ensures { MatchResult result (λ n. (n ≤ left) × (n ≤ length area.old)) (λ _. length area.new ≡ length area.old) }
{
    if (area.len() as u64) <= left {
        return full(source, area);
    }
    full(source, &mut area[..left as usize])
}

// Reads at most n bytes and drops them. It answers how many came.
fn skip_some<R: Read>(source: &mut R, n: u64) -> io::Result<u64>
    ensures { IfOk result (λ k. k ≤ n) }
{
    let mut space = [0; 65536];
    Ok(fill(source, n, &mut space)? as u64)
}

// Reads n bytes and drops them. It answers how many came: fewer where the input ends.
pub fn skip<R: Read>(source: &mut R, n: u64) -> io::Result<u64>
    ensures { IfOk result (λ k. k ≤ n) }
{
    let mut done = 0;
    // Kept: as in `full`.
    while done < n {
        let got = skip_some(source, n - done)?;
        if got == 0 {
            break;
        }
        done += got;
    }
    Ok(done)
}
