// What programs in C or Rust link: the layers' public functions, with document 01's number for each answer. A slice is a pointer
// and then a length.
#![tactic(auto)]

ghost use Rattle.std.specs.Prelude.{◌≡◌};
ghost use Rattle.exports.specs.Numbers.{numbered, root_laid};
ghost use Rattle.exports.specs.Programs.{shown, priced, played};
ghost use Rattle.blake2b.specs.Answers.{digested};

use machine::Prices;

// blake2b::digest. 0: done; 2: a digest or a key of another length, and the area is as it was.
#[unsafe(no_mangle)]
pub extern "C" fn candlebrood_digest(key: &[u8], message: &[u8], out: &mut [u8]) -> u64
    ensures { numbered result out.new ≡ digested key.now message.now out.old }
{
    match blake2b::digest(key, message, out) {
        Ok(()) => 0,
        Err(blake2b::LengthError) => 2,
    }
}

// tree::root. 0: done; 2: bytes that are not whole segments, or an area that is not 32 bytes, and the area is as it was.
#[unsafe(no_mangle)]
pub extern "C" fn candlebrood_root(bytes: &[u8], out: &mut [u8]) -> u64
    ensures { numbered result out.new ≡ root_laid bytes.now out.old }
{
    if out.len() != 32 {
        return 2;
    }
    match tree::root(bytes) {
        Ok(root) => {
            area::copy_between(&root, 0, out, 0, 32);
            0
        }
        Err(_) => 2,
    }
}

// bench_program::run: one program from a fresh host to its close, on lent areas, with sectors of any size. It answers document 01's number; `count`,
// an area of 8 bytes, takes how many bytes at the front of the output area are records, 0 where it was refused. 2 also where that area has
// another length, and then all is as it was.
#[unsafe(no_mangle)]
#[rattlefmt::skip]
pub extern "C" fn candlebrood_run(
    sector: u64,
    init: u16, memory: u16, readbase: u16, readlength: u16, writebase: u16, writelength: u16, truncatebase: u16,
    budget: u64, ids: &[u8], head: &[u8], bytes: &[u8],
    disk: &mut [u8], stage: &mut [u8], input: &mut [u8], output: &mut [u8], count: &mut [u8],
) -> u64
    ensures { shown result disk.new stage.new input.new output.new count.new ≡
        played sector (priced init memory readbase readlength writebase writelength truncatebase)
        budget ids.now head.now bytes.now
        disk.old stage.old input.old output.old count.old }
{
    if count.len() != 8 {
        return 2;
    }
    let prices = Prices { init, memory, readbase, readlength, writebase, writelength, truncatebase };
    let done = bench_program::run(sector, prices, budget, ids, head, bytes, disk, stage, input, output);
    area::store(count, 0, 8, done.written);
    done.number()
}
