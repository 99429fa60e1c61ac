// The square root of a binary64: the value of the format nearest to the exact root.
// A guess is made in whole numbers and then judged by its square. Only the judging is proved: a wrong guess costs time and not the answer.
#![tactic(auto)]

ghost use Rattle.std.specs.Prelude.{◌≡◌, ◌+◌, ◌*◌, ◌/◌, ◌%◌, ◌^◌, ◌<◌, ◌≤◌, true, from_bits, to_bits};
ghost use Rattle.std.specs.Float.{binary64};
ghost use Rattle.root.specs.Nearest.{SquareRoot};
ghost use Rattle.root.specs.Root.{root_of, root_in};
ghost use Rattle.root.specs.Whole.{NearestWhole};

mod guess;
mod inverse;

#[derive(Clone, Copy)]
struct Root {
    root: u64,
    rem: u64,
}

// The root of m * 2^44 cut to a whole number, a binary digit a turn, and what is left of m * 2^44 beside its square.
fn whole_root(m: u64) -> Root
    ensures { (result.root * result.root + result.rem ≡ m * 2 ^ 44) × (result.rem ≤ 2 * result.root) × (result.root < 2 ^ 54) }
{
    let mut rest = m;
    let mut root = 0u64;
    let mut rem = 0u64;
    for _ in 0..54u64 {
        let t = rem * 4 + (rest >> 62);
        let trial = root * 4 + 1;
        rest = rest << 2;
        if trial <= t {
            rem = t - trial;
            root = root * 2 + 1;
        } else {
            rem = t;
            root = root * 2;
        }
    }
    Root { root, rem }
}

// The whole number nearest to the root of n * 2^52, digit by digit.
fn slow_root(n: u64) -> u64
    requires { (2 ^ 52 ≤ n) × (n < 2 ^ 54) }
    ensures { NearestWhole (n * 2 ^ 52) result }
{
    let r = whole_root(n << 10);
    (r.root + 1) / 2
}

// The value nearest to the root of m * 2^(52 + v), in units of 2^-1074, from the whole number q nearest to the root of m * 2^52, or of its double for an odd v.
fn placed(m: u64, v: u64, q: u64) -> f64
    requires { (2 ^ 52 ≤ m) × (m < 2 ^ 53) × (970 ≤ v) × (v < 3068) × NearestWhole (m * 2 ^ (v % 2) * 2 ^ 52) q }
    ensures { result ≡ root_in (m * 2 ^ (52 + v)) }
{
    f64::from_bits((v / 2) * 0x10_0000_0000_0000 + q)
}

// The same, digit by digit.
fn slow_in(m: u64, v: u64) -> f64
    requires { (2 ^ 52 ≤ m) × (m < 2 ^ 53) × (970 ≤ v) × (v < 3068) }
    ensures { result ≡ root_in (m * 2 ^ (52 + v)) }
{
    placed(m, v, slow_root(m << (v % 2)))
}

// Is g surely the whole number nearest to the root of n * 2^52? It is where g * (g + 1) reaches n * 2^52 and exceeds it by less than 2 * g.
// Answering false is always allowed: where the lower halves of both would borrow, it does.
fn judged(n: u64, g: u64) -> bool
    requires { g < 2 ^ 54 }
    ensures { result ≡ true → NearestWhole (n * 2 ^ 52) g }
{
    let low = g.wrapping_mul(g + 1);
    let part = n << 52;
    if words::high(g, g + 1) == n >> 12 {
        if part <= low {
            return low - part < 2 * g;
        }
    }
    false
}

// The root of the positive value whose pattern is b, digit by digit.
fn slow_positive(b: u64) -> f64
    requires { (0 < b) × (b < 0x7FF0_0000_0000_0000) }
    ensures { result ≡ root_of (from_bits binary64 b) }
{
    let e = b / 0x10_0000_0000_0000;
    if e == 0 {
        let s = u64::leading_zeros(b) as u64 - 11;
        return slow_in(b << s, 1022 - s);
    }
    slow_in(b % 0x10_0000_0000_0000 + 0x10_0000_0000_0000, e + 1021)
}

// The root of x, digit by digit, for every x.
fn slow_sqrt(x: f64) -> f64
    ensures { result ≡ root_of x }
{
    if x != x {
        return x;
    }
    let b = f64::to_bits(x);
    if b == 0 {
        return x;
    }
    if b < 0x7FF0_0000_0000_0000 {
        return slow_positive(b);
    }
    if b == 0x7FF0_0000_0000_0000 {
        return x;
    }
    if b == 0x8000_0000_0000_0000 {
        return x;
    }
    0.0 / 0.0
}

// The value of a normal pattern b without its exponent's even part: from 1 to 4, in units of 2^-62.
fn reduced(b: u64) -> u64
    requires { (2 ^ 52 ≤ b) × (b < 0x7FF0_0000_0000_0000) }
    ensures { result ≡ (b % 2 ^ 52 + 2 ^ 52) * 2 ^ ((b / 2 ^ 52 + 1021) % 2) * 2 ^ 10 }
{
    let m = b % 0x10_0000_0000_0000 + 0x10_0000_0000_0000;
    (m << 11) >> ((b >> 52) % 2)
}

// The root of x, whose pattern b is normal, where a guess at it is one off.
fn beside(x: f64, b: u64, n: u64, g: u64) -> f64
    requires { (b ≡ to_bits binary64 x) × (2 ^ 52 ≤ b) × (b < 0x7FF0_0000_0000_0000) × (n ≡ (b % 2 ^ 52 + 2 ^ 52) * 2 ^ ((b / 2 ^ 52 + 1021) % 2)) × (g < 2 ^ 54) }
    ensures { result ≡ root_of x }
{
    let m = b % 0x10_0000_0000_0000 + 0x10_0000_0000_0000;
    let v = (b >> 52) + 1021;
    if g + 1 < 0x40_0000_0000_0000 {
        if judged(n, g + 1) {
            return placed(m, v, g + 1);
        }
    }
    if 1 <= g {
        if judged(n, g - 1) {
            return placed(m, v, g - 1);
        }
    }
    slow_sqrt(x)
}

// The binary64 nearest to the exact square root of x. NaN and what is below zero give NaN; either zero and +infinity give themselves.
// The first clause says what the answer is, by midpoint squares; the second gives it as a definition that computes.
pub fn sqrt(x: f64) -> f64
    ensures nearest { SquareRoot x result }
    ensures worked { result ≡ root_of x }
{
    if x != x {
        return x;
    }
    let b = f64::to_bits(x);
    let e = b >> 52;
    if 1 <= e {
        if e < 2047 {
            let y = reduced(b);
            let n = y >> 10;
            let g = guess::guess((b >> 44) % 512, y);
            if judged(n, g) {
                return placed(b % 0x10_0000_0000_0000 + 0x10_0000_0000_0000, e + 1021, g);
            }
            return beside(x, b, n, g);
        }
    }
    slow_sqrt(x)
}
