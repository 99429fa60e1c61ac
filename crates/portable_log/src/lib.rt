// The portable natural logarithm: every operation is one binary64 operation, in a fixed order, so that its bits are the
// same on every machine.
#![tactic(auto)]

ghost use Rattle.std.specs.Prelude.{◌≡◌, false, cond, ◌/◌, ◌^◌, ◌≤◌, ◌<◌, pos, ◌-ℤ◌};
ghost use Rattle.std.specs.Float.{binary64};
ghost use Rattle.std.specs.Float.Ieee.{to_bits, ne};
ghost use Rattle.portable_log.specs.Log as Spec;

const EXP_MASK: u64 = 0x7FF << 52;

const TWO_52: f64 = 4503599627370496.0;

const LN2_HI: f64 = 6.93147180369123816490e-01;

const LN2_LO: f64 = 1.90821492927058770002e-10;

// The digits of a pattern, and those of sqrt(2)/2.
const DIGITS: u64 = 0x000F_FFFF_FFFF_FFFF;

const ROOT_DIGITS: u64 = 0x0006_A09E_667F_3BCD;

// 1 in units of 2^-53.
const WHOLE: u64 = 1 << 53;

// The bit patterns of the polynomial's coefficients L1 to L7.
const L: [u64; 7] = [
    0x3FE5_5555_5555_5593,
    0x3FD9_9999_9997_FA04,
    0x3FD2_4924_9422_9359,
    0x3FCC_71C5_1D8E_78AF,
    0x3FC7_4664_96CB_03DE,
    0x3FC3_9A09_D078_C69F,
    0x3FC2_F112_DF3E_5244,
];

// frac * 2^exp
#[derive(Clone, Copy)]
pub struct Parts {
    pub frac: f64,
    pub exp: i32,
}

// The exponent's field of a bit pattern.
fn field(b: u64) -> u64
    ensures { result ≡ Spec.field b }
{
    (b >> 52) & 0x7FF
}

// The pattern b with its exponent's field set to 1022.
fn with_half(b: u64) -> f64
    ensures { result ≡ Spec.frac b }
{
    f64::from_bits((b & !EXP_MASK) | (1022u64 << 52))
}

// a - b
fn difference(a: u64, b: u64) -> i32
    requires { (a < 65536) × (b < 65536) }
    ensures { result ≡ pos a -ℤ pos b }
{
    a as i32 - b as i32
}

// The parts of the number whose product with 2^scale has the pattern b.
fn parts_of(b: u64, scale: u64) -> Parts
    requires { scale < 64 }
    ensures { result ≡ Spec.parts_of scale b }
{
    Parts {
        frac: with_half(b),
        exp: difference(field(b), 1022 + scale),
    }
}

// A fraction of magnitude in [0.5, 1) and an exponent: x = frac * 2^exp where x is finite and not 0. The zeros give ±0.5
// and -1074, the infinities ±0.5 and 1025, every NaN 0.75 and 1025.
pub fn frexp(x: f64) -> Parts
    ensures { result ≡ Spec.frexp x }
{
    if x != x {
        return Parts {
            frac: 0.75,
            exp: 1025,
        };
    }
    let b = f64::to_bits(x);
    // Times 2^52, which is exact, a subnormal has a leading digit.
    if field(b) == 0 {
        return parts_of(f64::to_bits(x * TWO_52), 52);
    }
    parts_of(b, 0)
}

// The logarithm of f1 * 2^ki.
fn combine(f1: f64, ki: i32) -> f64
    ensures { result ≡ Spec.combine f1 ki }
{
    let l1 = f64::from_bits(L[0]);
    let l2 = f64::from_bits(L[1]);
    let l3 = f64::from_bits(L[2]);
    let l4 = f64::from_bits(L[3]);
    let l5 = f64::from_bits(L[4]);
    let l6 = f64::from_bits(L[5]);
    let l7 = f64::from_bits(L[6]);
    let f = f1 - 1.0;
    let k = ki as f64;
    let s = f / (2.0 + f);
    let s2 = s * s;
    let s4 = s2 * s2;
    let t1 = s2 * (l1 + s4 * (l3 + s4 * (l5 + s4 * l7)));
    let t2 = s4 * (l2 + s4 * (l4 + s4 * l6));
    let r = t1 + t2;
    let hfsq = 0.5 * f * f;
    k * LN2_HI - (hfsq - (s * (hfsq + r) + k * LN2_LO) - f)
}

// The logarithm of the number whose product with 2^scale has the pattern b, which has no sign: so b >> 52 is its exponent's
// field. A fraction below sqrt(2)/2 is doubled. The digits alone tell it, and doubled it has the same digits: so it is made
// from integers, nothing branches on what no processor can foresee, and nothing waits for a comparison or a product of floats.
fn scaled_log(b: u64, scale: u64) -> f64
    requires { (b < 0x8000_0000_0000_0000) × (scale < 64) }
    ensures { result ≡ Spec.of_parts (Spec.parts_of scale b) }
{
    let m = b & DIGITS;
    let d = (m < ROOT_DIGITS) as u64;
    let f = f64::from_bits(m | ((1022 + d) << 52));
    combine(f, difference(b >> 52, 1022 + scale + d))
}

// The natural logarithm of a number x that is not normal and above 0: the bits above its digits are 0, or 2047 and more.
fn other_log(x: f64) -> f64
    requires { (ne x x ≡ false) × (1 ≤ to_bits binary64 x / 2 ^ 52 → 2047 ≤ to_bits binary64 x / 2 ^ 52) }
    ensures { result ≡ Spec.plog x }
{
    if x == f64::from_bits(0x7FF0_0000_0000_0000) {
        return x;
    }
    if x < 0.0 {
        return 0.0 / 0.0;
    }
    if x == 0.0 {
        return f64::from_bits(0xFFF0_0000_0000_0000);
    }
    // What is left is subnormal.
    scaled_log(f64::to_bits(x * TWO_52), 52)
}

// The natural logarithm of x. NaN and +infinity come back unchanged, a negative x gives NaN, either zero -infinity. A
// normal positive x, by far the most frequent, is told by its exponent's field alone.
pub fn plog(x: f64) -> f64
    ensures { result ≡ Spec.plog x }
{
    if x != x {
        return x;
    }
    let b = f64::to_bits(x);
    let e = b >> 52;
    if 1 <= e && e < 2047 {
        return scaled_log(b, 0);
    }
    other_log(x)
}

// The natural logarithm of 1 less the number in [0, 1) that an output x of the generator gives. What is left is n * 2^-53
// for a whole number n from 1 to 2^53, which a float holds: so its product with 2^53 is n, and nothing is rounded.
pub fn plog_of_rest(x: u64) -> f64
    ensures { result ≡ Spec.plog (Spec.rest x) }
{
    let n = WHOLE - (x >> 11);
    // A signed conversion is one instruction.
    scaled_log(f64::to_bits(n as i64 as f64), 53)
}
