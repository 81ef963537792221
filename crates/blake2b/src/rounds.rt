// (2.7, 3.2) The twelve rounds of F. Each is a line, the columns of v first and then its diagonals, and names the words in the order of the
// round's row of the message schedule: row r, or r - 10 from round 10 on.
ghost use Rattle.std.specs.Prelude.{◌≡◌, ◌<◌, slice_index};
ghost use Rattle.blake2b.specs.Compression as RFC;

use crate::mixing::g;

// G on the four columns of v, with the words a to h of m. The compiler puts this function and the next in line at each of their calls: by
// its own reckoning they cost 275 where it allows 375, and a whole round would cost too much.
#[rattlefmt::skip]
fn columns(m: &[u64; 16], v: &mut [u64; 16], a: usize, b: usize, c: usize, d: usize, e: usize, f: usize, g_: usize, h: usize)
    requires { (a < 16) × (b < 16) × (c < 16) × (d < 16) × (e < 16) × (f < 16) × (g_ < 16) × (h < 16) }
    ensures { v.new ≡
        RFC.G (RFC.G (RFC.G (RFC.G v.old 0 4 8 12 (slice_index m.now a) (slice_index m.now b))
        1 5 9 13 (slice_index m.now c) (slice_index m.now d)) 2 6 10 14 (slice_index m.now e) (slice_index m.now f))
        3 7 11 15 (slice_index m.now g_) (slice_index m.now h) }
{
    g(v, 0, 4, 8, 12, m[a], m[b]);
    g(v, 1, 5, 9, 13, m[c], m[d]);
    g(v, 2, 6, 10, 14, m[e], m[f]);
    g(v, 3, 7, 11, 15, m[g_], m[h]);
}

// G on the four diagonals of v, with the words a to h of m.
#[rattlefmt::skip]
fn diagonals(m: &[u64; 16], v: &mut [u64; 16], a: usize, b: usize, c: usize, d: usize, e: usize, f: usize, g_: usize, h: usize)
    requires { (a < 16) × (b < 16) × (c < 16) × (d < 16) × (e < 16) × (f < 16) × (g_ < 16) × (h < 16) }
    ensures { v.new ≡
        RFC.G (RFC.G (RFC.G (RFC.G v.old 0 5 10 15 (slice_index m.now a) (slice_index m.now b))
        1 6 11 12 (slice_index m.now c) (slice_index m.now d)) 2 7 8 13 (slice_index m.now e) (slice_index m.now f))
        3 4 9 14 (slice_index m.now g_) (slice_index m.now h) }
{
    g(v, 0, 5, 10, 15, m[a], m[b]);
    g(v, 1, 6, 11, 12, m[c], m[d]);
    g(v, 2, 7, 8, 13, m[e], m[f]);
    g(v, 3, 4, 9, 14, m[g_], m[h]);
}

// The rounds of any block, or of the straight path's. The compiler puts a function as large as this one in line only where it has a single
// caller, and how quick the hash is hangs on that: so each caller has an instance of its own, and `compression::compress` and
// `straight::state` have to stay the only ones. With a second caller of either the hash is as right as before and slower, and no check
// notices. In line on the straight path, the words of its block stay in registers, and the seven that are 0 are never added.
#[rattlefmt::skip]
pub fn rounds<const STRAIGHT: bool>(m: &[u64; 16], v: &mut [u64; 16])
    ensures { v.new ≡ RFC.rounds 12 m.now v.old }
{
    columns(m, v, 0, 1, 2, 3, 4, 5, 6, 7); diagonals(m, v, 8, 9, 10, 11, 12, 13, 14, 15);
    columns(m, v, 14, 10, 4, 8, 9, 15, 13, 6); diagonals(m, v, 1, 12, 0, 2, 11, 7, 5, 3);
    columns(m, v, 11, 8, 12, 0, 5, 2, 15, 13); diagonals(m, v, 10, 14, 3, 6, 7, 1, 9, 4);
    columns(m, v, 7, 9, 3, 1, 13, 12, 11, 14); diagonals(m, v, 2, 6, 5, 10, 4, 0, 15, 8);
    columns(m, v, 9, 0, 5, 7, 2, 4, 10, 15); diagonals(m, v, 14, 1, 11, 12, 6, 8, 3, 13);
    columns(m, v, 2, 12, 6, 10, 0, 11, 8, 3); diagonals(m, v, 4, 13, 7, 5, 15, 14, 1, 9);
    columns(m, v, 12, 5, 1, 15, 14, 13, 4, 10); diagonals(m, v, 0, 7, 6, 3, 9, 2, 8, 11);
    columns(m, v, 13, 11, 7, 14, 12, 1, 3, 9); diagonals(m, v, 5, 0, 15, 4, 8, 6, 2, 10);
    columns(m, v, 6, 15, 14, 9, 11, 3, 0, 8); diagonals(m, v, 12, 2, 13, 7, 1, 4, 10, 5);
    columns(m, v, 10, 2, 8, 4, 7, 6, 1, 5); diagonals(m, v, 15, 11, 9, 14, 3, 12, 13, 0);
    columns(m, v, 0, 1, 2, 3, 4, 5, 6, 7); diagonals(m, v, 8, 9, 10, 11, 12, 13, 14, 15);
    columns(m, v, 14, 10, 4, 8, 9, 15, 13, 6); diagonals(m, v, 1, 12, 0, 2, 11, 7, 5, 3);
}
