// The parts of a line, each read from the front of what is left of it. A part answers what it says and what is then left, or None where it does not stand there.
ghost use Rattle.std.specs.Prelude.{◌≡◌, ◌∷◌, ℕ, ◌+◌, ◌*◌, ◌^◌, ◌<◌, ◌≤◌, length, IfSome};
ghost use Rattle.text.specs.Text.{Bytes};
ghost use Rattle.net_text.specs.Forms as Forms;
ghost use Rattle.net_text.specs.Scanned as Scanned;

use net::Net;

// A decimal: its value where it fits 64 bits and else the largest number of 64 bits, and whether it is badly written.
#[derive(Clone, Copy)]
pub struct Number {
    pub value: u64,
    pub strange: bool,
}

// An arc, by the kinds of the crate net.
#[derive(Clone, Copy)]
pub struct ArcSeen {
    pub kind: u64,
    pub place: usize,
    pub weight: u64,
    pub strange: bool,
}

// The arcs of a transition line.
#[derive(Clone, Copy)]
pub struct ArcsSeen {
    pub count: usize,
    pub strange: bool,
}

// A word, which says nothing.
pub fn word<'a>(line: &'a [u8], w: &[u8]) -> Option<&'a [u8]>
    ensures { Forms.exactly w.now line.now ≡ Scanned.passed result }
{
    line.strip_prefix(w)
}

// The value so far, and whether it is over 64 bits; then the value is the largest of 64 bits.
#[derive(Clone, Copy)]
struct Sum {
    value: u64,
    over: bool,
}

// The value so far with one digit more.
fn one_digit_more(sum: Sum, digit: u64) -> Sum
    requires { digit < 10 }
    ensures { (v : ℕ) → Scanned.Kept v sum.value sum.over → Scanned.Kept (v * 10 + digit) result.value result.over }
{
    if sum.over {
        return sum;
    }
    if sum.value > (u64::MAX - digit) / 10 {
        return Sum {
            value: u64::MAX,
            over: true,
        };
    }
    Sum {
        value: sum.value * 10 + digit,
        over: false,
    }
}

// Does a zero lead other digits?
fn zero_leads(digits: &[u8]) -> bool
    ensures { result ≡ Forms.zero_leads digits.now }
{
    matches!(digits, [b'0', _, ..])
}

// A decimal: each digit is valued as it is read.
pub fn decimal<'a>(line: &'a [u8]) -> Option<(Number, &'a [u8])>
    ensures { Scanned.number line.now ≡ Scanned.found result }
{
    let mut sum = Sum {
        value: 0,
        over: false,
    };
    let mut rest = line;
    while let [b @ b'0'..=b'9', behind @ ..] = rest {
        sum = one_digit_more(sum, u64::from(*b - b'0'));
        rest = behind;
    }
    let n = line.len() - rest.len();
    if n == 0 {
        return None;
    }
    let number = Number {
        value: sum.value,
        strange: zero_leads(&line[..n]) | sum.over,
    };
    Some((number, rest))
}

// A hexadecimal digit in lower case; 16 where there is none. One test for the ten and one for the six, so that the sixteen of a float are read without a branch.
fn hex_digit(b: u8) -> u64
    ensures is { (t : Bytes) → Forms.hex_digit (b ∷ t) ≡ Scanned.hex_is result t }
    ensures small { result ≤ 16 }
{
    let figure = b.wrapping_sub(b'0');
    if figure < 10 {
        return u64::from(figure);
    }
    let letter = b.wrapping_sub(b'a');
    if letter < 6 {
        return u64::from(letter) + 10;
    }
    16
}

// The sixteen digits of a float's bits: all are read, and then it is seen whether one was none.
pub fn hexadecimal<'a>(line: &'a [u8]) -> Option<(u64, &'a [u8])>
    ensures { Forms.hexadecimal line.now ≡ Scanned.found result }
{
    let (digits, rest) = line.split_at_checked(16)?;
    let mut bits: u64 = 0;
    let mut strange = false;
    for b in digits {
        let d = hex_digit(*b);
        strange = strange | (d == 16);
        bits = bits * 16 + d % 16;
    }
    if strange {
        return None;
    }
    Some((bits, rest))
}

// Place and weight, with a space between them.
#[derive(Clone, Copy)]
pub struct Pair {
    pub place: u64,
    pub weight: u64,
    pub strange: bool,
}

fn two_numbers<'a>(line: &'a [u8]) -> Option<(Pair, &'a [u8])>
    ensures { Scanned.pair_form line.now ≡ Scanned.found result }
{
    let (place, line) = decimal(line)?;
    let line = word(line, b" ")?;
    let (weight, line) = decimal(line)?;
    let pair = Pair {
        place: place.value,
        weight: weight.value,
        strange: place.strange | weight.strange,
    };
    Some((pair, line))
}

// A put, a read or a block, behind its word.
fn plain_arc<'a>(line: &'a [u8], kind: u64) -> Option<(ArcSeen, &'a [u8])>
    ensures { Scanned.plain_arc kind line.now ≡ Scanned.found_arc result }
{
    let (pair, line) = two_numbers(line)?;
    let line = word(line, b")")?;
    let arc = ArcSeen {
        kind: kind,
        place: pair.place as usize,
        weight: pair.weight,
        strange: pair.strange,
    };
    Some((arc, line))
}

// The kind of a take by its kinetic flag.
fn take_kind(flag: u64) -> u64
    ensures { result ≡ Scanned.take_kind flag }
{
    if flag == 1 {
        net::KINETIC_TAKE
    } else {
        net::TAKE
    }
}

// A take, behind its word.
fn take_arc<'a>(line: &'a [u8]) -> Option<(ArcSeen, &'a [u8])>
    ensures { Scanned.take_arc line.now ≡ Scanned.found_arc result }
{
    let (pair, line) = two_numbers(line)?;
    let line = word(line, b" ")?;
    let (flag, line) = decimal(line)?;
    let line = word(line, b")")?;
    let arc = ArcSeen {
        kind: take_kind(flag.value),
        place: pair.place as usize,
        weight: pair.weight,
        strange: pair.strange | flag.strange | (flag.value > 1),
    };
    Some((arc, line))
}

// One arc, with the space in front of it.
pub fn arc<'a>(line: &'a [u8]) -> Option<(ArcSeen, &'a [u8])>
    ensures { Scanned.through Scanned.seen_arc (Forms.next_arc line.now) ≡ Scanned.found_arc result }
{
    let line = word(line, b" ")?;
    if let Some(rest) = word(line, b"(take ") {
        return take_arc(rest);
    }
    if let Some(rest) = word(line, b"(put ") {
        return plain_arc(rest, net::PUT);
    }
    if let Some(rest) = word(line, b"(read ") {
        return plain_arc(rest, net::READ);
    }
    if let Some(rest) = word(line, b"(block ") {
        return plain_arc(rest, net::BLOCK);
    }
    None
}

// An arc into its slot; past 16 none.
fn store(net: &mut Net, base: usize, count: usize, a: ArcSeen)
    requires { base + 16 ≤ 1024 }
    ensures { net.new ≡ Scanned.with_arc net.old base count a }
{
    if count < 16 {
        let slot = base + count;
        net.kind[slot] = a.kind;
        net.place[slot] = a.place;
        net.weight[slot] = a.weight;
    }
}

// All arcs that stand in front, into the slots of a transition from base on; past 16 they are only counted.
pub fn arcs<'a>(line: &'a [u8], base: usize, net: &mut Net) -> (ArcsSeen, &'a [u8])
    requires { (base + 16 ≤ 1024) × Scanned.Sized net.old }
    ensures { Scanned.ArcsRead line.now base net.old net.new result.0 result.1.now }
{
    let mut left = line;
    let mut count = 0;
    let mut strange = false;
    while let Some((a, rest)) = arc(left) {
        store(net, base, count, a);
        count += 1;
        strange = strange | a.strange;
        left = rest;
    }
    (
        ArcsSeen {
            count: count,
            strange: strange,
        },
        left,
    )
}
