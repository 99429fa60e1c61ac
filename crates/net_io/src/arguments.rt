// Numbers as a program is given them in its arguments. specs/Digits says what one is.
ghost use Rattle.std.specs.Prelude.{◌≡◌, ◌≢◌, ℕ, ◌+◌, ◌-◌, ◌*◌, ◌<◌, ◌≤◌, length, slice_index};
ghost use Rattle.net_io.specs.Digits as Spec;

use std::env::{Env, FillError};

fn is_digit(b: u8) -> bool
    ensures { result ≡ Spec.is_digit_byte b }
{
    matches!(b, b'0'..=b'9')
}

// n with a digit behind it. A number past 10^18 is past every place, count, weight and number of turns: it becomes the largest.
fn with_digit(n: u64, b: u8) -> u64
    requires { (48 ≤ b) × (b ≤ 57) }
    ensures { (v : ℕ) → n ≡ Spec.held v → result ≡ Spec.held (v * 10 + (b - 48)) }
{
    if 1_000_000_000_000_000_000 <= n {
        return u64::MAX;
    }
    n * 10 + u64::from(b - b'0')
}

// The number that a word is, if it is one.
pub fn number_of(digits: &[u8]) -> Option<u64>
    ensures { result ≡ Spec.number digits.now }
{
    if digits.is_empty() {
        return None;
    }
    let mut value = 0u64;
    for b in digits {
        if !is_digit(*b) {
            return None;
        }
        value = with_digit(value, *b);
    }
    Some(value)
}

// The number that an argument is, if it is one of at most 20 digits. No contract can say which arguments a program is given, here and in the next one;
// what a word means as a number, number_of says.
pub fn number_argument(rt: &HostRuntime, i: usize) -> Option<u64> {
    let mut digits = [0u8; 20];
    let n = rt.arg(i, &mut digits).unwrap_or(0);
    number_of(&digits[..n])
}

// Is there such an argument? It may be longer than the room.
pub fn is_given(rt: &HostRuntime, i: usize) -> bool {
    let mut room = [0u8; 1];
    !matches!(rt.arg(i, &mut room), Err(FillError::NotPresent))
}

// Where what begins at `from` ends in a list: at this mark, or with the list, as what begins behind it does.
pub fn end_of(list: &[u8], from: usize, mark: u8) -> usize
    ensures within { (from ≤ length list.now → from ≤ result) × (result ≤ length list.now) }
    ensures before { (k : ℕ) → from ≤ k → k < result → slice_index list.now k ≢ mark }
    ensures found { result < length list.now → slice_index list.now result ≡ mark }
{
    for i in from..list.len() {
        if list[i] == mark {
            return i;
        }
    }
    list.len()
}
