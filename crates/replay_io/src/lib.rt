// What the programs that replay recorded cases share: reading numbers and nets, writing numbers and cells. The input is a row of numbers, each 16
// hexadecimal digits and a newline. A net is its places and transitions; for each place its initial count and capacity, its label's length, and the
// label's sixteen bytes as two numbers, the first byte highest; for each transition its rate and delay, by their bits, its number of arcs, and the kind,
// place and weight of each. No more is read than a net has room for.
#![tactic(auto)]

ghost use Rattle.std.specs.Prelude.{◌≡◌, ℕ, ◌+◌, ◌*◌, ◌%◌, ◌^◌, ◌≤◌, [], ltb, length, drop, MatchOption};
ghost use Rattle.std.specs.Float.{binary64};
ghost use Rattle.std.specs.Float.Ieee.{nan, to_bits};
ghost use Rattle.net.specs.Net.{pick};
ghost use Rattle.net_text.specs.Forms as Forms;
ghost use Rattle.replay_io.specs.Digits as Digits;

use net::Net;
use net_io::read_full;
use net_text::float_of;
use playing::PathEnd;
use rng::Xoshiro256;
use std::io::{self, Read};

fn digit(b: u8) -> u64
    ensures { result ≡ Digits.digit b }
{
    if b >= b'a' {
        return u64::from(b - b'a') + 10;
    }
    if b >= b'0' {
        return u64::from(b - b'0');
    }
    0
}

// The value of hexadecimal digits, of which 64 bits are kept. specs/Digits says what any bytes come to; digits in lower case, as a net text has them, come to
// their value.
pub fn word(digits: &[u8]) -> u64
    ensures counted { result ≡ Digits.word_from 0 digits.now }
    ensures written { (v : ℕ) → Forms.hex_from (length digits.now) 0 digits.now ≡ Forms.met v [] → result ≡ v % 2 ^ 64 }
{
    let mut n = 0;
    for b in digits {
        n = (n << 4) | digit(*b);
    }
    n
}

// The next number of the input, if one is left.
pub fn next_number(input: &mut impl Read) -> Option<u64> {
    let mut text = [0u8; 17];
    if read_full(input, &mut text) < 17 {
        return None;
    }
    Some(word(&text[..16]))
}

// A number that was found, 0 where there was none.
fn or_zero(found: Option<u64>) -> u64
    ensures { MatchOption found (result ≡ 0) (λ n. result ≡ n) }
{
    found.unwrap_or(0)
}

// The next number, 0 where there is none.
pub fn number(input: &mut impl Read) -> u64 {
    or_zero(next_number(input))
}

pub fn size(input: &mut impl Read) -> usize {
    number(input) as usize
}

// The eight bytes of a number from byte `from` on, the highest first.
fn put_bytes(n: u64, from: usize, label: &mut [u8; 512])
    requires { from ≤ 504 }
{
    label[from..from + 8].copy_from_slice(&n.to_be_bytes());
}

fn read_places(input: &mut impl Read, n: usize, net: &mut Net) {
    for p in 0..n.min(32) {
        net.initial[p] = number(input);
        net.capacity[p] = number(input);
        net.lengths[p] = size(input);
        put_bytes(number(input), 16 * p, &mut net.label);
        put_bytes(number(input), 16 * p + 8, &mut net.label);
    }
}

// Reads the arcs of the transition whose slots begin at `from`.
fn read_arcs(input: &mut impl Read, n: usize, from: usize, net: &mut Net)
    requires { from ≤ 1008 }
{
    for slot in from..from + n.min(16) {
        net.kind[slot] = number(input);
        net.place[slot] = size(input);
        net.weight[slot] = number(input);
    }
}

fn read_transitions(input: &mut impl Read, n: usize, net: &mut Net) {
    for j in 0..n.min(64) {
        net.rate[j] = float_of(number(input));
        net.delay[j] = float_of(number(input));
        let arcs = size(input);
        net.arcs[j] = arcs;
        read_arcs(input, arcs, 16 * j, net);
    }
}

// The net of so many places; all else is as the input has it.
pub fn read_net(input: &mut impl Read, places: usize) -> Net
    ensures { result.places ≡ places }
{
    let mut net = net::empty();
    let transitions = size(input);
    net.transitions = transitions;
    read_places(input, places, &mut net);
    read_transitions(input, transitions, &mut net);
    net.places = places;
    net
}

// The generator of four words. No contract can say what is read.
pub fn read_generator(input: &mut impl Read) -> Xoshiro256 {
    let a = number(input);
    let b = number(input);
    let c = number(input);
    let d = number(input);
    Xoshiro256::from_state([a, b, c, d])
}

// The first n instants, of as many as there is room for. What is read no contract can say; the instants from n on stay.
pub fn read_instants(input: &mut impl Read, n: usize, instants: &mut [f64; 2048])
    ensures { drop n instants.new ≡ drop n instants.old }
{
    for i in 0..n.min(2048) {
        instants[i] = float_of(number(input));
    }
}

pub fn write(rt: &impl Print, text: &[u8]) -> io::Result<()> {
    rt.write_all(text)
}

pub fn write_number(rt: &impl Print, n: u64) -> io::Result<()> {
    print!(rt; " {n}")
}

pub fn write_word(rt: &impl Print, n: u64) -> io::Result<()> {
    print!(rt; " {n:016x}")
}

// A float's bits; none of a NaN, whose pattern cannot be read.
fn bits_of(x: f64) -> Option<u64>
    ensures { MatchOption result (x ≡ nan) (λ n. n ≡ to_bits binary64 x) }
{
    if x != x {
        return None;
    }
    Some(x.to_bits())
}

// A float by its bits, any NaN as nan, in one write. No contract can say what is written, here and below.
pub fn put_float(rt: &impl Print, x: f64) -> io::Result<()> {
    match bits_of(x) {
        Some(bits) => print!(rt; "{bits:016x}"),
        None => write(rt, b"nan"),
    }
}

// The same behind a space, in one write too.
pub fn write_float(rt: &impl Print, x: f64) -> io::Result<()> {
    match bits_of(x) {
        Some(bits) => write_word(rt, bits),
        None => write(rt, b" nan"),
    }
}

// The four words of a generator; no contract can say that they are written.
pub fn write_generator(rt: &impl Print, generator: Xoshiro256) -> io::Result<()> {
    for n in generator.state() {
        write_word(rt, n)?;
    }
    Ok(())
}

// How a path ended, in words; no contract can say that they are written.
pub fn write_end(rt: &impl Print, end: PathEnd) -> io::Result<()> {
    match end {
        PathEnd::Quiet => write(rt, b"quiet"),
        PathEnd::Spent => write(rt, b"spent"),
        PathEnd::Reached => write(rt, b"reached"),
        PathEnd::Halted => write(rt, b"halted"),
        PathEnd::Refused(c) => {
            let number = c.number();
            print!(rt; "refused {number}")
        }
    }
}

// The first n cells, at most 2,048, by their bits.
pub fn write_cells(rt: &impl Print, n: usize, table: &[f64; 2048]) -> io::Result<()> {
    for x in &table[..n.min(2048)] {
        write_float(rt, *x)?;
    }
    Ok(())
}

// How many are the cells of an answer and the one behind them; 0 where there cannot be so many.
pub fn shown(places: usize, instants: usize) -> usize
    ensures { result ≡ pick (ltb 32 places) 0 (pick (ltb 2048 instants) 0 (places * instants + 1)) }
{
    if places > 32 {
        return 0;
    }
    if instants > 2048 {
        return 0;
    }
    places * instants + 1
}
