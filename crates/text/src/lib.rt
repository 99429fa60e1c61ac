// Bytes and numbers written into a lent buffer. A writer answers the position behind what it wrote, and `None` where it finds too little room: then no byte has changed.
#![tactic(auto)]

ghost use Rattle.std.specs.Prelude.{◌≡◌, ◌+◌, ◌≤◌, ◌<◌, leb, length};
ghost use Rattle.std.specs.Float.{binary64};
ghost use Rattle.std.specs.Float.Ieee.{to_bits};
ghost use Rattle.text.specs.Numbers as Numbers;
ghost use Rattle.text.specs.Numbers.{low_digits, decimal_text, float_text};
ghost use Rattle.text.specs.Buffer.{placed, written};

// Whether n bytes from position at on are within len. The sum is not formed: it may not fit.
pub fn has_room(len: usize, at: usize, n: usize) -> bool
    ensures { result ≡ leb (at + n) len }
{
    at <= len && n <= len - at
}

// The bytes from position at on, which fit. No `copy_from_slice`, which asks more of an archive for C: a `memmove` from outside.
fn copy(out: &mut [u8], at: usize, bytes: &[u8])
    requires { at + length bytes.now ≤ length out.old }
    ensures { out.new ≡ placed out.old at bytes.now }
{
    for i in 0..bytes.len() {
        out[at + i] = bytes[i];
    }
}

// The bytes as they are.
pub fn put_bytes(out: &mut [u8], at: usize, bytes: &[u8]) -> Option<usize>
    ensures { (out.new, result) ≡ written out.old at bytes.now }
{
    if !has_room(out.len(), at, bytes.len()) {
        return None;
    }
    copy(out, at, bytes);
    Some(at + bytes.len())
}

fn digit(d: u64) -> u8
    requires { d < 16 }
    ensures { result ≡ Numbers.digit d }
{
    match d {
        0..=9 => b'0' + d as u8,
        _ => b'a' + (d - 10) as u8,
    }
}

// The count lowest digits of n, from the last to the first.
fn fill(out: &mut [u8], at: usize, base: u64, count: usize, n: u64)
    requires { (0 < base) × (base ≤ 16) × (at + count ≤ length out.old) }
    ensures { out.new ≡ placed out.old at (low_digits base count n) }
{
    let mut rest = n;
    for k in (0..count).rev() {
        out[at + k] = digit(rest % base);
        rest /= base;
    }
}

// How many digits the decimal n has.
pub fn decimal_length(n: u64) -> usize
    ensures { result ≡ length (decimal_text n) }
{
    let mut count = 1;
    let mut rest = n / 10;
    while 0 < rest {
        count += 1;
        rest /= 10;
    }
    count
}

// A decimal without a leading zero.
pub fn put_decimal(out: &mut [u8], at: usize, n: u64) -> Option<usize>
    ensures { (out.new, result) ≡ written out.old at (decimal_text n) }
{
    let count = decimal_length(n);
    if !has_room(out.len(), at, count) {
        return None;
    }
    fill(out, at, 10, count, n);
    Some(at + count)
}

// The bits of x; a NaN's pattern cannot be read, and one stands for all.
fn bits(x: f64) -> u64
    ensures { result ≡ to_bits binary64 x }
{
    if x.is_nan() {
        return 0x7ff8_0000_0000_0000;
    }
    x.to_bits()
}

// A float as the 16 hexadecimal digits of its bits.
pub fn put_float(out: &mut [u8], at: usize, x: f64) -> Option<usize>
    ensures { (out.new, result) ≡ written out.old at (float_text x) }
{
    if !has_room(out.len(), at, 16) {
        return None;
    }
    fill(out, at, 16, 16, bits(x));
    Some(at + 16)
}
