// What is written: the line of a path, where it stands, and its counts at the instants. That it cannot be written goes unsaid.
use net_io::{write, write_number, write_refused};
use ssa::{Halted, Onward, PathEnd};
use timers::queue::Queue;

fn write_part(rt: &HostRuntime, n: u64) {
    write(rt, b" ");
    write_number(rt, n);
}

// A float, as the sixteen hexadecimal digits of its bits.
fn write_float(rt: &HostRuntime, x: f64) {
    let mut digits = [0u8; 16];
    text::put_float(&mut digits, 0, x);
    write(rt, b" ");
    write(rt, &digits);
}

fn write_told(rt: &HostRuntime, head: &str, r: &Onward) {
    let s = &r.state;
    let _ = println!(rt;
        "({head} {} {} {} {})",
        s.steps, r.settled, s.peak, s.rounded
    );
}

// The line of a path.
pub fn write_path(rt: &HostRuntime, r: &Onward) {
    match r.end {
        PathEnd::Quiet => write_told(rt, "path quiet", r),
        PathEnd::Spent => write_told(rt, "path spent", r),
        PathEnd::Reached => write_told(rt, "path reached", r),
        PathEnd::Halted => write_told(rt, "halted", r),
        PathEnd::Refused(c) => write_refused(rt, c.number(), 0),
    }
}

fn write_counts(rt: &HostRuntime, places: usize, counts: &[u64; 32]) {
    write(rt, b"(counts");
    for n in &counts[..places.min(32)] {
        write_part(rt, *n);
    }
    write(rt, b")\n");
}

fn write_timer(rt: &HostRuntime, who: usize, at: f64, taken: u64) {
    write(rt, b"(timer");
    write_part(rt, who as u64);
    write_float(rt, at);
    write_part(rt, taken);
    write(rt, b")\n");
}

fn write_timers(rt: &HostRuntime, q: &Queue) {
    for i in 0..q.len.min(256) {
        write_timer(rt, q.whos[i], q.ats[i], q.takens[i]);
    }
}

// Where a path over so many places stands.
pub fn write_state(rt: &HostRuntime, places: usize, s: &Halted) {
    write(rt, b"(clock");
    write_float(rt, s.clock);
    write(rt, b")\n");
    write_counts(rt, places, &s.counts);
    write_timers(rt, &s.timers);
}

// A count, by its cell. The cells of an answer are whole numbers up to 2^53: another is never met, and would be shown by its bits.
fn write_cell(rt: &HostRuntime, x: f64) {
    if 0.0 <= x && x <= 9007199254740992.0 {
        write_part(rt, std::num::truncating_f64_to_u64(x));
    } else {
        write_float(rt, x);
    }
}

// The counts of a place at the instants.
fn write_row(rt: &HostRuntime, p: usize, row: &[f64]) {
    write(rt, b"(place");
    write_part(rt, p as u64);
    for x in row {
        write_cell(rt, *x);
    }
    write(rt, b")\n");
}

// Those of every place, n a row, as far as the table has them.
pub fn write_rows(rt: &HostRuntime, places: usize, n: usize, table: &[f64]) {
    let mut rest = table;
    for p in 0..places {
        if rest.len() < n {
            return;
        }
        write_row(rt, p, &rest[..n]);
        rest = &rest[n..];
    }
}
