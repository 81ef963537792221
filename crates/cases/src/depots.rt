// An input of `depot`, which has 8 sectors of disk, 4 of stage, and an output of 16,384 bytes.
ghost use Rattle.std.specs.Prelude.{◌≡◌, ◌≤◌, length, MatchResult};

use bench_input::Reader;
use host::Host;
use std::io;
use std::io::Read;

// Reads an input of so many bytes and plays it; answers how many bytes `depot` writes, which stand at the front of `shown`.
// A read that fails leaves `shown` as it was.
pub fn play(source: &mut impl Read, many: u64, shown: &mut [u8]) -> io::Result<usize>
    ensures { MatchResult result (λ n. n ≤ length shown.new) (λ _. shown.new ≡ shown.old) }
{
    let mut all = [0u8; Reader::KEPT];
    let n = bench_input::gather(source, many, true, &mut all)?;
    let mut disk = [0u8; 32_768];
    let mut stage = [0u8; 16_384];
    let mut input = [0u8; 65_536];
    let mut output = [0u8; 16_384];
    let done = bench_program::answer(
        Host::LEAST,
        &all[0..n],
        &mut disk,
        &mut stage,
        &mut input,
        &mut output,
    );
    Ok(written(done.number(), done.written, &output, shown))
}

// A refusal's number in 8 bytes, or the records; nothing where there is no room for them.
fn written(number: u64, count: u64, output: &[u8], shown: &mut [u8]) -> usize
    ensures { result ≤ length shown.new }
{
    if number != 0 {
        return laid(&number.to_le_bytes(), shown);
    }
    match output.get(..count as usize) {
        Some(records) => laid(records, shown),
        None => 0,
    }
}

// Bytes at the front of an area; answers how many, none where it is shorter.
fn laid(bytes: &[u8], shown: &mut [u8]) -> usize
    ensures { result ≤ length shown.new }
{
    let n = bytes.len();
    match shown.get_mut(..n) {
        Some(front) => {
            front.copy_from_slice(bytes);
            n
        }
        None => 0,
    }
}
