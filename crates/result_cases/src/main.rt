// Writes document 01's sample result with the labels q0 and q1, then refusals, deviations, labels and numbers at the edges, and what a buffer
// that is too short is left with.
#![tactic(auto)]

use std::io;

fn front(rt: &impl Print, out: &[u8], n: usize) -> io::Result<()> {
    if n <= out.len() {
        rt.write_all(&out[..n])?;
    }
    Ok(())
}

// What stands in front of the position behind the bytes written; of a buffer that was too short, all.
fn show(rt: &impl Print, out: &[u8], end: Option<usize>) -> io::Result<()> {
    match end {
        Some(n) => front(rt, out, n),
        None => {
            rt.write_all(b"short ")?;
            rt.write_all(out)?;
            rt.write_all(b"\n")
        }
    }
}

fn result(rt: &impl Print, places: u64, samples: u64, realizations: u64) -> io::Result<()> {
    let mut out = [b'.'; 96];
    let end = result_text::result_line(&mut out, 0, places, samples, realizations);
    show(rt, &out, end)
}

fn refused(rt: &impl Print, number: u64, line: u64) -> io::Result<()> {
    let mut out = [b'.'; 96];
    let end = result_text::refused_line(&mut out, 0, number, line);
    show(rt, &out, end)
}

fn mean(rt: &impl Print, label: &[u8], row: &[f64]) -> io::Result<()> {
    let mut out = [b'.'; 96];
    let end = result_text::mean_line(&mut out, 0, label, row);
    show(rt, &out, end)
}

fn dev(rt: &impl Print, label: &[u8], row: &[f64]) -> io::Result<()> {
    let mut out = [b'.'; 96];
    let end = result_text::dev_line(&mut out, 0, label, row);
    show(rt, &out, end)
}

// A line of 14 bytes, in a buffer of 16, from position at on; the bytes around it stay.
fn refused_at(rt: &impl Print, at: usize) -> io::Result<()> {
    let mut out = [b'.'; 16];
    let end = result_text::refused_line(&mut out, at, 1, 2);
    show(rt, &out, end)
}

// A line of 41 bytes in a buffer of 41, and of 40: its label has 16.
fn mean_full(rt: &impl Print, row: &[f64]) -> io::Result<()> {
    let mut out = [b'.'; 41];
    let end = result_text::mean_line(&mut out, 0, b"waiting-sessions", row);
    show(rt, &out, end)
}

fn mean_short(rt: &impl Print, row: &[f64]) -> io::Result<()> {
    let mut out = [b'.'; 40];
    let end = result_text::mean_line(&mut out, 0, b"waiting-sessions", row);
    show(rt, &out, end)
}

fn main(rt: HostRuntime) -> io::Result<()> {
    result(&rt, 2, 3, 1)?;
    mean(&rt, b"q0", &[2.0, 0.0, 0.0])?;
    mean(&rt, b"q1", &[0.0, 0.0, 2.0])?;
    refused(&rt, 1, 6)?;
    refused(&rt, 0, 9)?;
    refused(&rt, 10, 18446744073709551615)?;
    result(&rt, 9, 99, 100)?;
    dev(&rt, b"7", &[0.5, -0.0, 1.0 / 0.0, 0.0 / 0.0])?;
    dev(&rt, b"-", &[5e-324, -1.7976931348623157e308])?;
    refused_at(&rt, 0)?;
    refused_at(&rt, 2)?;
    refused_at(&rt, 3)?;
    refused_at(&rt, 17)?;
    refused_at(&rt, 18446744073709551615)?;
    mean_full(&rt, &[1.0])?;
    mean_short(&rt, &[1.0])
}
