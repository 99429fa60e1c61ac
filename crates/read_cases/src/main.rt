// Reads a batch of net texts from standard input, each behind its length in five digits and a newline, and writes one line for each: the refusal's
// number and line, or the numbers and labels of the net and the run line that it gives. tests/net_text.py makes batches and knows the answers.
#![tactic(auto)]

ghost use Rattle.std.specs.Prelude.{◌≡◌, ◌≤◌, length};

use net::Net;
use net_io::read_full;
use net_text::RunLine;
use replay_io::{write, write_float, write_number, write_word};
use std::io;

fn places(rt: &impl Print, net: &Net) -> io::Result<()> {
    for p in 0..net.places.min(32) {
        write_number(rt, net.initial[p])?;
        write_number(rt, net.capacity[p])?;
        write(rt, b" ")?;
        write(rt, net::label_of(&net.label, &net.lengths, p))?;
    }
    Ok(())
}

// The n arcs of the transition whose slots begin at base.
fn arcs(rt: &impl Print, net: &Net, n: usize, base: usize) -> io::Result<()>
    requires { base ≤ 1008 }
{
    for a in base..base + n.min(16) {
        write_number(rt, net.kind[a])?;
        write_number(rt, net.place[a] as u64)?;
        write_number(rt, net.weight[a])?;
    }
    Ok(())
}

fn transitions(rt: &impl Print, net: &Net) -> io::Result<()> {
    for j in 0..net.transitions.min(64) {
        write_float(rt, net.rate[j])?;
        write_float(rt, net.delay[j])?;
        write_number(rt, net.arcs[j] as u64)?;
        arcs(rt, net, net.arcs[j], 16 * j)?;
    }
    Ok(())
}

fn given(rt: &impl Print, net: &Net, run: RunLine) -> io::Result<()> {
    write(rt, b"given")?;
    write_number(rt, net.places as u64)?;
    write_number(rt, net.transitions as u64)?;
    places(rt, net)?;
    transitions(rt, net)?;
    write_number(rt, run.samples)?;
    write_number(rt, run.realizations)?;
    write_number(rt, run.seed)?;
    write_word(rt, run.horizon)?;
    write(rt, b"\n")
}

fn answer(rt: &impl Print, text: &[u8]) -> io::Result<()> {
    match net_text::read_net(text) {
        Ok(read) => given(rt, &read.net, read.run),
        Err(down) => {
            let number = down.refusal.number();
            let line = down.line;
            println!(rt; "refused {number} {line}")
        }
    }
}

fn digit(b: u8) -> usize
    ensures { result ≤ 9 }
{
    usize::from(b.saturating_sub(48).min(9))
}

// The value of five digits.
fn five(s: &[u8; 5]) -> usize
    ensures { result ≤ 99999 }
{
    let a = digit(s[0]);
    let b = digit(s[1]);
    let c = digit(s[2]);
    let d = digit(s[3]);
    let e = digit(s[4]);
    a * 10000 + b * 1000 + c * 100 + d * 10 + e
}

fn all_cases(rt: &impl Print, batch: &[u8]) -> io::Result<()> {
    let mut rest = batch;
    // each case takes a byte or more
    for _ in 0..batch.len() {
        if rest.len() < 6 {
            return Ok(());
        }
        let end = 6 + five(&[rest[0], rest[1], rest[2], rest[3], rest[4]]);
        if rest.len() < end {
            return Ok(());
        }
        answer(rt, &rest[6..end])?;
        rest = &rest[end..];
    }
    Ok(())
}

// Room for a batch.
fn room() -> [u8; 131072]
    ensures { 131072 ≡ length result }
{
    [0; 131072]
}

fn main(rt: HostRuntime) -> io::Result<()> {
    let mut buffer = room();
    let n = read_full(&mut rt.stdin(), &mut buffer);
    all_cases(&rt, &buffer[..n])
}
