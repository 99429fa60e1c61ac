// Answers a recorded sample. A line of standard input is a letter and two words, 16 hexadecimal digits each; one line is written for each.
// Floats go by their bits, any NaN as `nan`; a whole number with a sign is given with 2^62 added. Lines s and t set the generator, and
// n and u draw from it.
#![tactic(auto)]

use net_io::read_full;
use net_text::float_of;
use replay_io::{put_float, word};
use rng::Xoshiro256;
use std::io::{self, Read};

fn word_line(rt: &impl Print, n: u64) -> io::Result<()> {
    println!(rt; "{n:016x}")
}

fn float_line(rt: &impl Print, x: f64) -> io::Result<()> {
    put_float(rt, x)?;
    rt.write_all(b"\n")
}

fn state_line(rt: &impl Print, s: [u64; 4]) -> io::Result<()> {
    println!(rt; "{:016x} {:016x} {:016x} {:016x}", s[0], s[1], s[2], s[3])
}

fn ways_line(rt: &impl Print, ways: Option<f64>) -> io::Result<()> {
    match ways {
        Some(x) => float_line(rt, x),
        None => rt.write_all(b"refused\n"),
    }
}

// The exponent is written as a float too.
fn parts_line(rt: &impl Print, x: f64) -> io::Result<()> {
    let p = portable_log::frexp(x);
    put_float(rt, p.frac)?;
    rt.write_all(b" ")?;
    float_line(rt, p.exp as f64)
}

// The whole number that n gives.
fn signed(n: u64) -> i64 {
    (n % 0x8000_0000_0000_0000) as i64 - 0x4000_0000_0000_0000
}

fn output(rt: &impl Print, state: &mut [u64; 4]) -> io::Result<()> {
    let drawn = Xoshiro256::from_state(*state).next_u64();
    *state = drawn.rng.state();
    word_line(rt, drawn.value)
}

fn uniform(rt: &impl Print, state: &mut [u64; 4]) -> io::Result<()> {
    let drawn = Xoshiro256::from_state(*state).uniform();
    *state = drawn.rng.state();
    float_line(rt, drawn.value)
}

fn answer(rt: &impl Print, letter: u8, a: u64, b: u64, state: &mut [u64; 4]) -> io::Result<()> {
    match letter {
        b'm' => word_line(rt, words::wrapping_mul(a, b)),
        b'r' => word_line(rt, words::rotate_left(a, (b % 0x1_0000_0000) as u32)),
        b's' => {
            *state = rng::splitmix64(a);
            state_line(rt, *state)
        }
        b't' => {
            *state = [a, b, state[0], state[1]];
            state_line(rt, *state)
        }
        b'n' => output(rt, state),
        b'u' => uniform(rt, state),
        b'f' => parts_line(rt, float_of(a)),
        b'l' => float_line(rt, portable_log::plog(float_of(a))),
        b'q' => float_line(rt, root::sqrt(float_of(a))),
        b'c' => ways_line(
            rt,
            combinations::combinations(signed(a), signed(b)).map(|c| c.value),
        ),
        b'd' => ways_line(rt, combinations::combinations_real(float_of(a), signed(b))),
        _ => rt.write_all(b"\n"),
    }
}

// Answers the lines, as long as there is one.
fn main(rt: HostRuntime) -> io::Result<()> {
    let mut input = rt.stdin();
    let mut state = [0u64; 4];
    for _ in 0..u64::MAX {
        let mut text = [0u8; 36];
        if read_full(&mut input, &mut text) < 36 {
            return Ok(());
        }
        let a = word(&text[2..18]);
        let b = word(&text[19..35]);
        answer(&rt, text[0], a, b, &mut state)?;
    }
    Ok(())
}
