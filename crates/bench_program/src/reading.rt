// The whole input in its bytes: price count, prices, budget, contract count, ids, head length, head, data.
ghost use Rattle.std.specs.Prelude.{◌≡◌, false, ◌+◌, ◌*◌, ◌≤◌, ◌<◌, length};
ghost use Rattle.bench_program.specs.Input as Says;
ghost use Rattle.bench_program.specs.Input.{number_at, prices_right, cut_short, ids_end, head_end, prices_in};

use crate::Outcome;
use machine::Prices;

// Whether no price passes 65,535.
fn prices_right(all: &[u8]) -> bool
    requires { 80 ≤ length all.now }
    ensures { result ≡ prices_right all.now }
{
    for i in 0..7 {
        if 65_535 < area::load(all, 8 + i * 8) {
            return false;
        }
    }
    true
}

// Whether ids, head length or head are missing. No count is multiplied before it is known that there are so many ids.
fn cut_short(all: &[u8]) -> bool
    requires { 80 ≤ length all.now }
    ensures { result ≡ cut_short all.now }
{
    let left = all.len() - Outcome::FRONT;
    let count = area::load(all, 72);
    if ((left / 32) as u64) < count {
        return true;
    }
    let behind = left - (count as usize) * 32;
    if behind < 8 {
        return true;
    }
    let n = area::load(all, all.len() - behind);
    ((behind - 8) as u64) < n
}

// 9: whether bytes ahead of the data are missing, the price count is not 7 or a price passes 65,535.
pub fn wrong(all: &[u8]) -> bool
    ensures { result ≡ Says.wrong all.now }
{
    if all.len() < Outcome::FRONT {
        return true;
    }
    if area::load(all, 0) != 7 {
        return true;
    }
    if !prices_right(all) {
        return true;
    }
    cut_short(all)
}

// Price i of an input that is not refused with 9: it does not pass 65,535.
fn price(all: &[u8], i: usize) -> u16
    requires all_value { Says.wrong all.now ≡ false }
    requires i_bound { i < 7 }
    ensures { result ≡ number_at all.now (8 + i * 8) }
{
    area::load(all, 8 + i * 8) as u16
}

// The seven prices.
pub fn prices(all: &[u8]) -> Prices
    requires { Says.wrong all.now ≡ false }
    ensures { result ≡ prices_in all.now }
{
    Prices {
        init: price(all, 0),
        memory: price(all, 1),
        readbase: price(all, 2),
        readlength: price(all, 3),
        writebase: price(all, 4),
        writelength: price(all, 5),
        truncatebase: price(all, 6),
    }
}

// Where the ids end.
pub fn ids_end(all: &[u8]) -> usize
    requires { Says.wrong all.now ≡ false }
    ensures { result ≡ ids_end all.now }
{
    Outcome::FRONT + (area::load(all, 72) as usize) * 32
}

// Where the head ends.
pub fn head_end(all: &[u8]) -> usize
    requires { Says.wrong all.now ≡ false }
    ensures { result ≡ head_end all.now }
{
    let ids = ids_end(all);
    let n = area::load(all, ids);
    ids + 8 + n as usize
}
