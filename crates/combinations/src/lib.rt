// How many ways there are to choose w of m tokens, as a float worked factor by factor, and whether that float is the whole number itself; and the product
// alone for a real m.
#![tactic(auto)]

ghost use Rattle.std.specs.Prelude.{◌≡◌, ◌≤◌, ◌<◌, ◌^◌, true, pos, get_or};
ghost use Rattle.combinations.specs.Binomial.{binomial, exact};
ghost use Rattle.combinations.specs.Combinations as Spec;
ghost use Rattle.combinations.specs.Real as Real;
ghost use Rattle.combinations.specs.Theorems as Theorems;

mod whole;

// The most factors that are worked, and the largest m: whole numbers up to 2^53 are floats.
const MOST_FACTORS: i64 = 16;

const LARGEST: i64 = 1 << 53;

// The largest m at which no product of two steps passes 2^53.
const UNROUNDED_2: u64 = 94906266;

// Below it m * (m - 1) is one word.
const ONE_WORD_2: u64 = 1 << 32;

// The ways as a float, and whether it equals the binomial coefficient exactly.
#[derive(Clone, Copy)]
pub struct Ways {
    pub value: f64,
    pub exact: bool,
}

impl Ways {
    fn exactly(value: f64) -> Ways
        ensures { Spec.flagged result ≡ Spec.value value true }
    {
        Ways { value, exact: true }
    }
}

// A product with factor i: times the factor, then over i + 1.
fn with_factor(res: f64, factor: f64, i: u64) -> f64
    requires { i < 2 ^ 53 }
    ensures { result ≡ Spec.with_factor res factor i }
{
    let divisor = (i + 1) as f64;
    res * factor / divisor
}

// m over 1, times m - 1 over 2, and so on: w factors. The first of them is m.
fn begun_product(m: u64, w: u64) -> f64
    requires { (1 ≤ w) × (w ≤ m) × (m ≤ 2 ^ 53) }
    ensures { result ≡ Spec.product (Spec.whole_factor (pos m)) w }
{
    let mut result = m as f64;
    for i in 1..w {
        result = with_factor(result, (m - i) as f64, i);
    }
    result
}

// The same for two factors: compiled, nothing is divided.
fn pairs(m: u64) -> f64
    requires { (2 ≤ m) × (m ≤ 2 ^ 53) }
    ensures { result ≡ Spec.product (Spec.whole_factor (pos m)) 2 }
{
    with_factor(m as f64, (m - 1) as f64, 1)
}

// The same by the shortest way, and 1 for no factor.
fn whole_product(m: u64, w: u64) -> f64
    requires { (w ≤ m) × (m ≤ 2 ^ 53) }
    ensures { result ≡ Spec.product (Spec.whole_factor (pos m)) w }
{
    if w == 0 {
        return 1.0;
    }
    if w == 2 {
        return pairs(m);
    }
    begun_product(m, w)
}

// x over 1, times x - 1 over 2, and so on: w factors. One loop for both products would take the factors as a closure, and be longer than the two.
fn real_product(x: f64, w: u64) -> f64
    requires { w ≤ 16 }
    ensures { result ≡ Spec.product (Real.real_factor x) w }
{
    let mut result = 1.0;
    for i in 0..w {
        result = with_factor(result, x - (i as f64), i);
    }
    result
}

// For each w the largest m, up to 2^53, at which no product of w steps passes 2^53, so that the float is exact.
static UNROUNDED: [u64; 17] = [
    9007199254740992,
    9007199254740992,
    UNROUNDED_2,
    262145,
    15248,
    2932,
    1015,
    489,
    290,
    196,
    146,
    116,
    97,
    84,
    75,
    69,
    64,
];

// That m; 0 where w is above 16.
pub fn unrounded(w: u64) -> u64
    ensures { result ≡ get_or Theorems.unrounded w 0 }
{
    if 16 < w {
        return 0;
    }
    UNROUNDED[w as usize]
}

// Does x, the product of w factors, equal the binomial coefficient? It does where no step can have rounded; elsewhere whole numbers decide.
fn is_exact(x: f64, m: u64, w: u64) -> bool
    requires { (w ≤ 16) × (w ≤ m) × (x ≡ Spec.product (Spec.whole_factor (pos m)) w) }
    ensures { result ≡ exact x m w }
{
    if m <= unrounded(w) {
        return true;
    }
    whole::equals_binomial(x, m, w)
}

// The same for two factors: m * (m - 1) is rounded once and then halved, which rounds nothing, so that it is exact where the odd part of m * (m - 1) has no
// more than 53 bits.
fn exact_pairs(m: u64) -> bool
    requires { (2 ≤ m) × (m < 2 ^ 32) }
    ensures { result ≡ exact (Spec.product (Spec.whole_factor (pos m)) 2) m 2 }
{
    let p = m * (m - 1);
    let t = u64::trailing_zeros(p) as u64;
    p >> t < 0x20_0000_0000_0000
}

// The product of w factors, with its flag.
fn judged(m: u64, w: u64) -> Ways
    requires { (w ≤ 16) × (w ≤ m) × (m ≤ 2 ^ 53) }
    ensures { Spec.flagged result ≡ Spec.counted m w }
{
    let value = whole_product(m, w);
    Ways {
        value,
        exact: is_exact(value, m, w),
    }
}

// How many ways there are to choose w of m, as a whole number, up to the bound of two.
fn few_ways(m: u64, w: u64) -> u64
    requires { (w ≤ 2) × (w ≤ m) × (m ≤ 94_906_266) }
    ensures { (result ≡ binomial m w) × (result ≤ 2 ^ 53) }
{
    if w == 2 {
        return m * (m - 1) / 2;
    }
    if w == 1 {
        return m;
    }
    1
}

// The same for one or two factors, as most takes have: up to the bound of two nothing is looked up, and the whole number is the float; above it the product
// of a pair is still one word for a while.
fn judged_few(m: u64, w: u64) -> Ways
    requires { (w ≤ 2) × (w ≤ m) × (m ≤ 2 ^ 53) }
    ensures { Spec.flagged result ≡ Spec.counted m w }
{
    if m <= UNROUNDED_2 {
        return Ways::exactly(few_ways(m, w) as f64);
    }
    if w == 2 && m < ONE_WORD_2 {
        return Ways {
            value: pairs(m),
            exact: exact_pairs(m),
        };
    }
    judged(m, w)
}

// The same, by the shorter way where there is one.
fn counted(m: u64, w: u64) -> Ways
    requires { (w ≤ 16) × (w ≤ m) × (m ≤ 2 ^ 53) }
    ensures { Spec.flagged result ≡ Spec.counted m w }
{
    if w <= 2 {
        return judged_few(m, w);
    }
    judged(m, w)
}

// The ways to choose w of m tokens: 1 where w is 0 or below, 0 where m is below w, both exact. `None` are then a w above 16 and an m
// above 2^53.
pub fn combinations(m: i64, w: i64) -> Option<Ways>
    ensures { Spec.meaning result ≡ Spec.combinations m w }
{
    if w <= 0 {
        return Some(Ways::exactly(1.0));
    }
    if m < w {
        return Some(Ways::exactly(0.0));
    }
    if w > MOST_FACTORS || m > LARGEST {
        return None;
    }
    Some(counted(m as u64, w as u64))
}

// The float of that answer without its flag, for a caller that asks for the flag apart.
pub fn combinations_unflagged(m: i64, w: i64) -> Option<f64>
    ensures { Real.meaning result ≡ Real.unflagged (Spec.combinations m w) }
{
    if w <= 0 {
        return Some(1.0);
    }
    if m < w {
        return Some(0.0);
    }
    if w > MOST_FACTORS || m > LARGEST {
        return None;
    }
    Some(whole_product(m as u64, w as u64))
}

// The flag of the ways to choose w of m tokens, without their float, for a caller that asks for the float apart. A refusal has none, and it is false.
pub fn exact_ways(m: u64, w: u64) -> bool
    ensures { result ≡ Spec.as_flag (Spec.combinations (pos m) (pos w)) }
{
    if w == 0 || m < w {
        return true;
    }
    if w > MOST_FACTORS as u64 || m > LARGEST as u64 {
        return false;
    }
    counted(m, w).exact
}

// The same product for a real x, where no rule asks whether x is below w: 1 where w is 0 or below, `None` where w is above 16.
pub fn combinations_real(x: f64, w: i64) -> Option<f64>
    ensures { Real.meaning result ≡ Real.combinations_real x w }
{
    if w <= 0 {
        return Some(1.0);
    }
    if w > MOST_FACTORS {
        return None;
    }
    Some(real_product(x, w as u64))
}
