// Lent bytes. Each function lays bytes over an area that its caller lends, or reads one, and its contract is one equation on
// lists. Rests on `lists`. These functions serve the layers above, which have tested every length: what they require, their callers prove.
#![tactic(auto)]

ghost use Rattle.std.specs.Prelude.{◌≡◌, ◌⊎◌, ◌+◌, ◌*◌, ◌^◌, ◌≤◌, ◌<◌, length, replicate};
ghost use Rattle.area.specs.Area as Says;
ghost use Rattle.area.specs.Area.{part, put, exchanged};
ghost use Rattle.area.specs.Little.{value_of, bytes_of};

// Kept: the loops of `copy_between`, `move_down` and `move_up` count an index. std's `copy_from_slice` and `copy_within` are plainer, and ask C
// for `memmove`, which the archive for C asked for nowhere.

// n bytes of src from `from` on, laid over dst from `to` on.
pub fn copy_between(src: &[u8], from: usize, dst: &mut [u8], to: usize, n: usize)
    requires n_in_bounds { from + n ≤ length src.now }
    requires n_in_bounds_2 { to + n ≤ length dst.old }
    ensures { dst.new ≡ put dst.old to (part src.now from n) }
{
    let mut i = 0;
    while i < n {
        dst[to + i] = src[from + i];
        i += 1;
    }
}

// n bytes of an area from `from` on, laid over it from `to` on as they were at the start, also where the spans overlap.
pub fn move_within(a: &mut [u8], from: usize, to: usize, n: usize)
    requires n_in_bounds { from + n ≤ length a.old }
    requires n_in_bounds_2 { to + n ≤ length a.old }
    ensures { a.new ≡ put a.old to (part a.old from n) }
{
    if to <= from {
        move_down(a, from, to, n);
    } else {
        move_up(a, from, to, n);
    }
}

// To where they lie lower: ascending, so that no byte is written over before it is read.
fn move_down(a: &mut [u8], from: usize, to: usize, n: usize)
    requires to_le_from { to ≤ from }
    requires n_in_bounds { from + n ≤ length a.old }
    ensures { a.new ≡ put a.old to (part a.old from n) }
{
    let mut i = 0;
    while i < n {
        a[to + i] = a[from + i];
        i += 1;
    }
}

// To where they lie higher: descending.
fn move_up(a: &mut [u8], from: usize, to: usize, n: usize)
    requires from_le_to { from ≤ to }
    requires n_in_bounds { to + n ≤ length a.old }
    ensures { a.new ≡ put a.old to (part a.old from n) }
{
    let mut i = n;
    while 0 < i {
        i -= 1;
        a[to + i] = a[from + i];
    }
}

// Two spans of n bytes of an area exchanged, as both were at the start. Where they overlap the bytes that both have are moved, and
// only the ends of the spans are exchanged.
pub fn swap_within(a: &mut [u8], one: usize, two: usize, n: usize)
    requires n_in_bounds { one + n ≤ length a.old }
    requires n_in_bounds_2 { two + n ≤ length a.old }
    ensures { a.new ≡ exchanged a.old one two n }
{
    if one <= two {
        let d = two - one;
        if n <= d {
            swap_apart(a, one, two, n);
        } else {
            let m = n - d;
            move_within(a, two, one, m);
            swap_apart(a, one + m, two + m, d);
        }
    } else {
        let d = one - two;
        if n <= d {
            swap_apart(a, two, one, n);
        } else {
            let m = n - d;
            move_within(a, one, one + d, m);
            swap_apart(a, two, one, d);
        }
    }
}

// Two spans that do not overlap, the lower named first.
fn swap_apart(a: &mut [u8], low: usize, high: usize, n: usize)
    requires apart { low + n ≤ high }
    requires in_bounds { high + n ≤ length a.old }
    ensures { a.new ≡ exchanged a.old low high n }
{
    let (front, back) = a.split_at_mut(high);
    front[low..low + n].swap_with_slice(&mut back[..n]);
}

// n times the byte b, laid over a from `at` on.
pub fn fill(a: &mut [u8], at: usize, n: usize, b: u8)
    requires { at + n ≤ length a.old }
    ensures { a.new ≡ put a.old at (replicate n b) }
{
    a[at..at + n].fill(b);
}

// Whether two byte strings are the same, all bytes of both. It takes any two.
pub fn same(a: &[u8], b: &[u8]) -> bool
    ensures { result ≡ Says.same a.now b.now }
{
    a == b
}

// The number that the 8 bytes of b from `at` on are.
pub fn load(b: &[u8], at: usize) -> u64
    requires { at + 8 ≤ length b.now }
    ensures { result ≡ value_of (part b.now at 8) }
{
    let mut bytes = [0; 8];
    bytes.copy_from_slice(&b[at..at + 8]);
    u64::from_le_bytes(bytes)
}

// The k lowest bytes of n, laid over a from `at` on.
pub fn store(a: &mut [u8], at: usize, k: usize, n: u64)
    requires { at + k ≤ length a.old }
    ensures { a.new ≡ put a.old at (bytes_of k n) }
{
    let mut rest = n;
    for byte in a[at..at + k].iter_mut() {
        *byte = (rest % 256) as u8;
        rest = rest / 256;
    }
}
