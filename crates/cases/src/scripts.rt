// A script of `calls`, read as `calls` reads it.
ghost use Rattle.std.specs.Prelude.{◌≡◌, ◌≤◌, length, MatchResult};

use std::io;
use std::io::Read;

// Plays a script of so many bytes of standard input on areas of zeros; answers how many bytes `calls` writes, which stand at the front of
// `shown`. What is behind a malformed item is read too, so that the next case begins behind it. A read
// that fails ends it with the error; reports that came ahead of it stand in `shown`.
#[rattlefmt::skip]
pub fn play(source: &mut impl Read, many: u64, shown: &mut [u8]) -> io::Result<usize>
    ensures { MatchResult result (λ n. n ≤ length shown.new) (λ _. length shown.new ≡ length shown.old) }
{
    let mut item = [0u8; script::ITEM];
    let mut disk = [0u8; 262_144];
    let mut stage = [0u8; 65_536];
    let mut input = [0u8; 65_536];
    let mut output = [0u8; 65_536];
    items(source, many, &mut item, &mut disk, &mut stage, &mut input, &mut output, shown)
}

// Kept: the areas are parameters, as `script::play_next` takes them.

// Item after item, up to one that is malformed or the end; the reports of the items played end at `end`.
#[rattlefmt::skip]
fn items(
    source: &mut impl Read, many: u64, item: &mut [u8],
    disk: &mut [u8], stage: &mut [u8], input: &mut [u8], output: &mut [u8], shown: &mut [u8],
) -> io::Result<usize>
    ensures { MatchResult result (λ n. n ≤ length shown.new) (λ _. length shown.new ≡ length shown.old) }
{
    let mut host = script::no_host();
    let mut left = many;
    let mut end: usize = 0;
    for _ in 0..u64::MAX {
        let played = script::play_next(source, left, item, host, disk, stage, input, output, &mut shown[end..])?;
        left = played.left;
        let Some(done) = played.done else {
            break;
        };
        host = done.host;
        end += done.written;
    }
    stdin::skip(source, left)?;
    Ok(end)
}
