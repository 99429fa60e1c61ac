// Prints the soak net of three arguments, the seed, the places and the transitions, as `soak::soak` writes it. Standard output has nothing else: that the
// arguments are wrong, with the refusal's number, or the output cannot be written is said on standard error.
#![tactic(auto)]

ghost use Rattle.std.specs.Prelude.{◌≡◌, length};

use net_io::arguments::is_given;
use net_io::{say, write_front};
use refusals::Refusal;
use std::env::Env;

// The number with one digit more, if that is a digit and the number fits.
fn with_digit(v: u64, b: u8) -> Option<u64> {
    if !b.is_ascii_digit() {
        return None;
    }
    v.checked_mul(10)?.checked_add(u64::from(b - b'0'))
}

// A decimal of at most 64 bits.
fn number_of(digits: &[u8]) -> Option<u64> {
    if digits.is_empty() {
        return None;
    }
    let mut v = 0;
    for b in digits {
        v = with_digit(v, *b)?;
    }
    Some(v)
}

fn argument(rt: &HostRuntime, i: usize) -> Option<u64> {
    let mut room = [0u8; 32];
    let n = rt.arg(i, &mut room).unwrap_or(0);
    number_of(&room[..n])
}

// Room for every text.
fn text_room() -> [u8; soak::LONGEST]
    ensures { 1614 ≡ length result }
{
    [0; soak::LONGEST]
}

fn say_usage(rt: &HostRuntime) {
    say(
        rt,
        b"usage: soak_text SEED PLACES TRANSITIONS, a seed below 2^64, 1 to 32 places and 1 to 16 transitions, as decimals\n",
    );
}

fn show(rt: &HostRuntime, out: &[u8], n: usize) {
    if !write_front(rt, out, n) {
        say(rt, b"soak_text: standard output cannot be written\n");
    }
}

fn refuse(rt: &HostRuntime, refusal: Refusal) {
    say(rt, b"soak_text: refused by ");
    let _ = rt.eprint(refusal.number());
    say(rt, b"\n");
    say_usage(rt);
}

fn print(rt: &HostRuntime, seed: u64, places: u64, transitions: u64) {
    let mut out = text_room();
    match soak::soak(seed, places, transitions, &mut out) {
        Ok(n) => show(rt, &out, n),
        Err(refusal) => refuse(rt, refusal),
    }
}

fn main(rt: HostRuntime) {
    if !is_given(&rt, 3) || is_given(&rt, 4) {
        say(&rt, b"soak_text: not three arguments\n");
        say_usage(&rt);
        return;
    }
    let Some(seed) = argument(&rt, 1) else {
        say(&rt, b"soak_text: SEED is not a decimal below 2^64\n");
        say_usage(&rt);
        return;
    };
    let Some(places) = argument(&rt, 2) else {
        say(&rt, b"soak_text: PLACES is not a decimal below 2^64\n");
        say_usage(&rt);
        return;
    };
    let Some(transitions) = argument(&rt, 3) else {
        say(&rt, b"soak_text: TRANSITIONS is not a decimal below 2^64\n");
        say_usage(&rt);
        return;
    };
    print(&rt, seed, places, transitions);
}
