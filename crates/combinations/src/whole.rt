// Does a float equal a binomial coefficient? Decided in whole numbers: a float M * 2^k does where M * 2^k * w! is m * (m - 1) * .. * (m - w + 1). Each side
// is held as an odd number, in two words, times a power of two; the sides are equal where both parts are. The odd part of the first has 98 bits at most, so
// that one which outgrows two words is followed no further.
ghost use Rattle.std.specs.Prelude.{◌≡◌, ℕ, ◌+◌, ◌*◌, ◌%◌, ◌^◌, ◌≤◌, ◌<◌};
ghost use Rattle.std.specs.Float.{binary64};
ghost use Rattle.std.specs.Float.Ieee.{of_bits};
ghost use Rattle.combinations.specs.Binomial as Binomial;
ghost use Rattle.combinations.specs.Binomial.{falling, exact};
ghost use Rattle.combinations.specs.Parts.{Holds};

// A whole number above 0: the odd number high * 2^64 + low, times 2^twos.
#[derive(Clone, Copy)]
struct Parts {
    high: u64,
    low: u64,
    twos: u64,
}

// The parts of a number of one word.
fn stripped(n: u64) -> Parts
    requires { 0 < n }
    ensures { (result.high ≡ 0) × (result.low % 2 ≡ 1) × (result.low * 2 ^ result.twos ≡ n) × (result.twos ≤ 64) }
{
    let t = u64::trailing_zeros(n) as u64;
    Parts {
        high: 0,
        low: n >> t,
        twos: t,
    }
}

// A number times one of one word. An odd part that outgrows two words is set to a number that has outgrown 100 bits, and stays there.
fn times(p: Parts, n: u64) -> Parts
    requires { (0 < n) × (p.twos ≤ 2 ^ 32) }
    ensures { ((N : ℕ) → Holds N p.high p.low p.twos → Holds (N * n) result.high result.low result.twos) × (result.twos ≤ p.twos + 64) }
{
    let f = stripped(n);
    let o = f.low;
    let twos = p.twos + f.twos;
    if words::high(p.high, o) == 0 {
        let above = words::wrapping_mul(p.high, o);
        let carry = words::high(p.low, o);
        if carry <= 0xFFFF_FFFF_FFFF_FFFF - above {
            return Parts {
                high: above + carry,
                low: words::wrapping_mul(p.low, o),
                twos,
            };
        }
    }
    Parts {
        high: 0xFFFF_FFFF_FFFF_FFFF,
        low: 0,
        twos,
    }
}

// top * (top - 1) * ..: count factors.
fn falling_parts(top: u64, count: u64) -> Parts
    requires { (count ≤ top) × (count ≤ 16) }
    ensures { Holds (falling top count) result.high result.low result.twos × (result.twos ≤ 2 ^ 32) }
{
    let mut p = Parts {
        high: 0,
        low: 1,
        twos: 0,
    };
    for i in 0..count {
        p = times(p, top - i);
    }
    p
}

// w!
fn factorial(w: u64) -> u64
    requires { w ≤ 16 }
    ensures { result ≡ Binomial.factorial w }
{
    match w {
        0 => 1,
        1 => 1,
        2 => 2,
        3 => 6,
        4 => 24,
        5 => 120,
        6 => 720,
        7 => 5040,
        8 => 40320,
        9 => 362880,
        10 => 3628800,
        11 => 39916800,
        12 => 479001600,
        13 => 6227020800,
        14 => 87178291200,
        15 => 1307674368000,
        16 => 20922789888000,
        _ => 0,
    }
}

// n times w!.
fn times_factorial(n: u64, w: u64) -> Parts
    requires { (0 < n) × (w ≤ 16) }
    ensures { Holds (n * Binomial.factorial w) result.high result.low result.twos × (result.twos ≤ 2 ^ 32) }
{
    let p = stripped(n);
    times(p, factorial(w))
}

// Does the normal value whose pattern is b equal the binomial coefficient? Its M and k, in units of 2^-1074, stand in the pattern.
fn normal_equals_binomial(b: u64, m: u64, w: u64) -> bool
    requires { (2 ^ 52 ≤ b) × (b < 0x7FF0_0000_0000_0000) × (w ≤ 16) × (w ≤ m) }
    ensures { result ≡ exact (of_bits binary64 b) m w }
{
    let l = times_factorial(b % 0x10_0000_0000_0000 + 0x10_0000_0000_0000, w);
    let r = falling_parts(m, w);
    if l.high == r.high {
        if l.low == r.low {
            return l.twos + (b >> 52) == r.twos + 1075;
        }
    }
    false
}

// Does x equal the binomial coefficient? A NaN, an infinity, a negative value and one below the normal values do not.
pub fn equals_binomial(x: f64, m: u64, w: u64) -> bool
    requires { (w ≤ 16) × (w ≤ m) }
    ensures { result ≡ exact x m w }
{
    if x != x {
        return false;
    }
    let b = f64::to_bits(x);
    if b < 0x10_0000_0000_0000 {
        return false;
    }
    if b >= 0x7FF0_0000_0000_0000 {
        return false;
    }
    normal_equals_binomial(b, m, w)
}
