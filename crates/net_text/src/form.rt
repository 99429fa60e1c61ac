// The form of each line between `(net` and `)`, from the front of the line on: None where it is not met. Whether something is left behind it is the caller's to see.
ghost use Rattle.std.specs.Prelude.{◌≡◌, ◌+◌, ◌≤◌};
ghost use Rattle.net_text.specs.Forms as Forms;
ghost use Rattle.net_text.specs.Scanned as Scanned;
ghost use Rattle.net_text.specs.Seen as Seen;

use super::{RunLine, scan};
use net::Net;
use scan::Number;

// A place line.
#[derive(Clone, Copy)]
pub struct PlaceSeen<'a> {
    pub initial: u64,
    pub capacity: u64,
    pub strange: bool,
    pub label: &'a [u8],
}

// A run line.
#[derive(Clone, Copy)]
pub struct RunSeen {
    pub run: RunLine,
    pub strange: bool,
}

// A move line; its arcs are in the slots.
#[derive(Clone, Copy)]
pub struct MoveSeen {
    pub rate: u64,
    pub delay: u64,
    pub count: usize,
    pub strange: bool,
}

// A word and behind it a decimal.
fn number_after<'a>(line: &'a [u8], w: &[u8]) -> Option<(Number, &'a [u8])>
    ensures { Seen.number_after w.now line.now ≡ Scanned.found result }
{
    scan::decimal(scan::word(line, w)?)
}

// A word and behind it a float.
fn pattern_after<'a>(line: &'a [u8], w: &[u8]) -> Option<(u64, &'a [u8])>
    ensures { Seen.pattern_after w.now line.now ≡ Scanned.found result }
{
    scan::hexadecimal(scan::word(line, w)?)
}

// The label behind the capacity: all between a space and the `)` that ends the line, or no byte where `)` stands instead of the space.
fn label_form<'a>(line: &'a [u8]) -> Option<(&'a [u8], &'a [u8])>
    ensures { Forms.label_form line.now ≡ Seen.found_label result }
{
    if let Some(rest) = scan::word(line, b" ") {
        let label = rest.strip_suffix(b")")?;
        return Some((label, &rest[rest.len()..]));
    }
    let rest = scan::word(line, b")")?;
    Some((&line[..0], rest))
}

pub fn place_form<'a>(line: &'a [u8]) -> Option<(PlaceSeen<'a>, &'a [u8])>
    ensures { Seen.PlaceRead line.now result }
{
    let (initial, line) = number_after(line, b"(place ")?;
    let (capacity, line) = number_after(line, b" ")?;
    let (label, line) = label_form(line)?;
    let place = PlaceSeen {
        initial: initial.value,
        capacity: capacity.value,
        strange: initial.strange | capacity.strange,
        label: label,
    };
    Some((place, line))
}

pub fn run_form<'a>(line: &'a [u8]) -> Option<(RunSeen, &'a [u8])>
    ensures { Seen.RunRead line.now result }
{
    let (samples, line) = number_after(line, b"(run ")?;
    let (realizations, line) = number_after(line, b" ")?;
    let (seed, line) = number_after(line, b" ")?;
    let (horizon, line) = pattern_after(line, b" ")?;
    let line = scan::word(line, b")")?;
    let run = RunLine {
        samples: samples.value,
        realizations: realizations.value,
        seed: seed.value,
        horizon: horizon,
    };
    let seen = RunSeen {
        run: run,
        strange: samples.strange | realizations.strange | seed.strange,
    };
    Some((seen, line))
}

// The arcs go into the slots from base on; past 16 they are only counted.
pub fn move_form<'a>(line: &'a [u8], base: usize, net: &mut Net) -> Option<(MoveSeen, &'a [u8])>
    requires { (base + 16 ≤ 1024) × Scanned.Sized net.old }
    ensures { Seen.MoveRead line.now base net.old net.new result }
{
    let (rate, line) = pattern_after(line, b"(move ")?;
    let (delay, line) = pattern_after(line, b" ")?;
    let (arcs, line) = scan::arcs(line, base, net);
    let line = scan::word(line, b")")?;
    let seen = MoveSeen {
        rate: rate,
        delay: delay,
        count: arcs.count,
        strange: arcs.strange,
    };
    Some((seen, line))
}
