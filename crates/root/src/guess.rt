// A guess at a root, in whole numbers. Nothing here is promised beyond a bound: what is made of a guess is judged (`judged`), and a wrong one costs time.
ghost use Rattle.std.specs.Prelude.{◌^◌, ◌<◌};

use crate::inverse;
use words::high;

// A guess at 2^52 times the root of x, a number from 1 to 4 in units of 2^-62 that lies in interval i. With y the inverse root to some 8 binary digits
// and s = x * y, the root is s / sqrt(1 - e) where e = 1 - s * y; u is e in units of 2^-72, and 1 / sqrt(1 - e) - 1 a polynomial of five terms, of which
// the upper three take only w, the upper half of u.
pub fn guess(i: u64, x: u64) -> u64
    ensures { result < 2 ^ 54 }
{
    let y = inverse::inverse(i);
    let s = high(x, y);
    let u = (high(s, y) ^ 0x3FFF_FFFF_FFFF_FFFF) << 10;
    let w = u >> 32;
    let square = w.wrapping_mul(w) >> 32;
    let lower = (w.wrapping_mul(0x5000_002D) >> 24).wrapping_add(0x5FFF_FFFF_FA8E);
    let upper = (w.wrapping_mul(0x7F21_52D3) >> 41).wrapping_add(0x45FF_81AD);
    let p = lower.wrapping_add(square.wrapping_mul(upper) >> 32);
    let q = high(u, p).wrapping_add(0x80_0000_0000_001D);
    let r = s.wrapping_add(high(high(s, u), q));
    r.wrapping_add(0x201) >> 10
}
