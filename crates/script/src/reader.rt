// The items of a script, read from standard input one by one.
ghost use Rattle.std.specs.Prelude.{◌≡◌, ◌+◌, ◌≤◌, length, None, IfSome, MatchResult};

use crate::shapes::Kind;
use std::io;
use std::io::Read;

// Room for any item that is kept: its first byte, at most 80 that follow it, and at most 131,073 of a head, a piece or a proof.
pub const ITEM: usize = 131_154;

// What has come: the length of the item at the front of its area, if there is a whole one, and how many bytes the script may still use.
// Kept: `Clone` and `Copy` alone: nothing compares or prints it.
#[derive(Clone, Copy)]
pub struct Came {
    pub length: Option<usize>,
    pub left: u64,
}

fn lost(left: u64) -> Came
    ensures { result ≡ record { length = None; left = left } }
{
    Came { length: None, left }
}

// Kept: reader, bytes left and area are parameters, here and below, as `play_next` takes them: a struct of them would serve one call of each.

// Reads n bytes behind the first `at` of the item; there is no length where bytes are missing.
fn more(source: &mut impl Read, left: u64, item: &mut [u8], at: usize, n: usize) -> io::Result<Came>
    requires { at + n ≤ length item.old }
    ensures { MatchResult result (λ came. IfSome came.length (λ k. k ≤ at + n) × (came.left ≤ left)) (λ _. length item.new ≡ length item.old) }
{
    let end = at + n;
    let got = stdin::fill(source, left, &mut item[at..end])?;
    let length = (got == n).then_some(end);
    Ok(Came {
        length,
        left: left - got as u64,
    })
}

// Reads the next item of a script that may use `left` bytes more to the front of `item`, which has room for any. Of an item that is not
// whole, or that begins as none does, what was read is lost.
pub fn next_from(source: &mut impl Read, left: u64, item: &mut [u8]) -> io::Result<Came>
    ensures { MatchResult result (λ came. IfSome came.length (λ k. k ≤ length item.new) × (came.left ≤ left)) (λ _. length item.new ≡ length item.old) }
{
    if item.len() < ITEM {
        return Ok(lost(left));
    }
    let first = more(source, left, item, 0, 1)?;
    if first.length.is_none() {
        return Ok(first);
    }
    let Ok(kind) = Kind::try_from(item[0]) else {
        return Ok(lost(first.left));
    };
    let n = kind.fixed();
    let front = more(source, first.left, item, 1, n)?;
    if front.length.is_none() {
        return Ok(front);
    }
    if !kind.right(item) {
        return Ok(lost(front.left));
    }
    match kind.most() {
        None => Ok(front),
        Some(most) => tail(source, front.left, item, 1 + n, most),
    }
}

// A head, a piece or a proof, whose length stands before `at`. What is behind its first `most` bytes is dropped, and the length changed to theirs:
// the call answers the same.
fn tail(
    source: &mut impl Read,
    left: u64,
    item: &mut [u8],
    at: usize,
    most: u64,
) -> io::Result<Came>
    requires { (8 ≤ at) × (at + most ≤ length item.old) }
    ensures { MatchResult result (λ came. IfSome came.length (λ k. k ≤ length item.new) × (came.left ≤ left)) (λ _. length item.new ≡ length item.old) }
{
    let n = area::load(&*item, at - 8);
    let keep = n.min(most);
    let kept = more(source, left, item, at, keep as usize)?;
    if kept.length.is_none() {
        return Ok(kept);
    }
    let dropped = stdin::skip(source, kept.left.min(n - keep))?;
    let behind = kept.left - dropped;
    if dropped < n - keep {
        return Ok(lost(behind));
    }
    area::store(item, at - 8, 8, keep);
    Ok(Came {
        length: kept.length,
        left: behind,
    })
}
