// Tests nets that are built here, and writes a line for each: what it is, and the number that turns it down, or 0.
#![tactic(auto)]

ghost use Rattle.std.specs.Prelude.{◌<◌};

use net::Net;
use refusals::Refusal;
use std::io;

fn number(v: Result<(), Refusal>) -> u64 {
    match v {
        Ok(()) => 0,
        Err(c) => c.number(),
    }
}

fn show(rt: &impl Print, what: &[u8], n: Net) -> io::Result<()> {
    rt.write_all(what)?;
    let answer = number(net::test_net(&n.lent()));
    println!(rt; ": {answer}")
}

fn digit(d: usize) -> u8
    requires { d < 10 }
{
    48 + d as u8
}

// Labels of three bytes, q00 to q31, each with letters behind its bytes.
fn names() -> [u8; 512] {
    let mut label = [97u8; 512];
    for p in 0..32 {
        let at = 16 * p;
        label[at] = 113;
        label[at + 1] = digit(p / 10);
        label[at + 2] = digit(p % 10);
    }
    label
}

// No place in use, and a label for each.
fn labelled() -> Net {
    let label = names();
    let mut n = net::empty();
    n.label = label;
    n.lengths = [3; 32];
    n
}

// No count set, and every slot filled with what no net may hold.
fn littered() -> Net {
    let nan = 0.0 / 0.0;
    Net {
        places: 0,
        transitions: 0,
        initial: [0xFFFF_FFFF_FFFF_FFFF; 32],
        capacity: [0xFFFF_FFFF_FFFF_FFFF; 32],
        label: [200; 512],
        lengths: [99; 32],
        rate: [nan; 64],
        delay: [nan; 64],
        arcs: [99; 64],
        kind: [5; 1024],
        place: [99; 1024],
        weight: [1_000_001; 1024],
    }
}

fn arc(mut n: Net, slot: usize, kind: u64, place: usize, weight: u64) -> Net
    requires { slot < 1024 }
{
    n.kind[slot] = kind;
    n.place[slot] = place;
    n.weight[slot] = weight;
    n
}

// The net of document 01's example: two places, q0 and q1, and one transition, with delay 1, that takes from the first and puts into the
// second.
fn sample_in(mut n: Net) -> Net {
    n.places = 2;
    n.transitions = 1;
    n.initial[0] = 2;
    n.initial[1] = 0;
    n.capacity[0] = 0;
    n.capacity[1] = 0;
    n.label[0] = 113;
    n.label[1] = 48;
    n.lengths[0] = 2;
    n.label[16] = 113;
    n.label[17] = 49;
    n.lengths[1] = 2;
    n.rate[0] = 1.0;
    n.delay[0] = 1.0;
    n.arcs[0] = 2;
    arc(arc(n, 0, net::KINETIC_TAKE, 0, 1), 1, net::PUT, 1, 1)
}

fn sample() -> Net {
    sample_in(labelled())
}

fn sized(places: usize, transitions: usize, arcs: usize) -> Net {
    let mut n = sample();
    n.places = places;
    n.transitions = transitions;
    n.arcs[0] = arcs;
    n
}

// As many of each as there may be: every arc puts 1 into place 0.
fn full() -> Net {
    let label = names();
    Net {
        places: 32,
        transitions: 64,
        initial: [0; 32],
        capacity: [0; 32],
        label,
        lengths: [3; 32],
        rate: [0.0; 64],
        delay: [0.0; 64],
        arcs: [16; 64],
        kind: [net::PUT; 1024],
        place: [0; 1024],
        weight: [1; 1024],
    }
}

fn paced(rate: f64, delay: f64) -> Net {
    let mut n = sample();
    n.rate[0] = rate;
    n.delay[0] = delay;
    n
}

// So many places, the 32nd with too large a count.
fn crowded(places: usize) -> Net {
    let mut n = sample();
    n.places = places;
    n.initial[31] = 9007199254740993;
    n
}

// The example with another length of a label.
fn long(p: usize, length: usize) -> Net
    requires { p < 32 }
{
    let mut n = sample();
    n.lengths[p] = length;
    n
}

// The example with another byte among the labels.
fn lettered(at: usize, b: u8) -> Net
    requires { at < 512 }
{
    let mut n = sample();
    n.label[at] = b;
    n
}

// q0 twice, with byte x behind the second.
fn twice(x: u8) -> Net {
    let mut n = lettered(17, 48);
    n.label[18] = x;
    n
}

// The third place is named as the first.
fn third() -> Net {
    let mut n = sample();
    n.places = 3;
    n.label[33] = 48;
    n.lengths[2] = 2;
    n
}

// A label of length 0 at place p, and too large a count at place q.
fn unnamed(p: usize, q: usize) -> Net
    requires { (p < 32) × (q < 32) }
{
    let mut n = long(p, 0);
    n.initial[q] = 9007199254740993;
    n
}

// So many places and transitions, the 32nd place without a label.
fn unlabelled(places: usize, transitions: usize) -> Net {
    let mut n = long(31, 0);
    n.places = places;
    n.transitions = transitions;
    n
}

fn labels(rt: &impl Print) -> io::Result<()> {
    show(rt, b"label absent", long(1, 0))?;
    show(rt, b"label of 1 byte, which begins another", long(1, 1))?;
    show(rt, b"label of 16 bytes", long(1, 16))?;
    show(rt, b"label of 17 bytes", long(1, 17))?;
    show(
        rt,
        b"label of 2^64 - 1 bytes",
        long(1, 0xFFFF_FFFF_FFFF_FFFF),
    )?;
    show(rt, b"label with a capital", lettered(16, 65))?;
    show(rt, b"label with byte 200", lettered(16, 200))?;
    show(rt, b"label with byte 0", lettered(17, 0))?;
    show(rt, b"label with a space", lettered(17, 32))?;
    show(rt, b"label with a comma", lettered(17, 44))?;
    show(rt, b"label with a hyphen", lettered(17, 45))?;
    show(rt, b"label with a point", lettered(17, 46))?;
    show(rt, b"label with a slash", lettered(17, 47))?;
    show(rt, b"label with a 0", lettered(16, 48))?;
    show(rt, b"label with a 9", lettered(16, 57))?;
    show(rt, b"label with a colon", lettered(17, 58))?;
    show(rt, b"label with a grave accent", lettered(17, 96))?;
    show(rt, b"label with an a", lettered(17, 97))?;
    show(rt, b"label with a z", lettered(17, 122))?;
    show(rt, b"label with a brace", lettered(17, 123))?;
    show(rt, b"a capital behind a label", lettered(18, 65))?;
    show(rt, b"label used already", twice(48))?;
    show(
        rt,
        b"label used already, with another byte behind it",
        twice(65),
    )?;
    show(rt, b"label used two places before", third())?;
    show(
        rt,
        b"no label at place 0, place 1 out of its domain",
        unnamed(0, 1),
    )?;
    show(
        rt,
        b"place 0 out of its domain, no label at place 1",
        unnamed(1, 0),
    )?;
    show(
        rt,
        b"place 1 out of its domain and without a label",
        unnamed(1, 1),
    )?;
    show(
        rt,
        b"31 places, the 32nd without a label",
        unlabelled(31, 1),
    )?;
    show(
        rt,
        b"33 places, the 32nd without a label",
        unlabelled(33, 1),
    )?;
    show(
        rt,
        b"32 places, the 32nd without a label, 65 transitions",
        unlabelled(32, 65),
    )
}

fn counts(rt: &impl Print) -> io::Result<()> {
    show(rt, b"the example", sample())?;
    show(rt, b"no place", sized(0, 0, 0))?;
    show(rt, b"32 places, 64 transitions, 16 arcs each", full())?;
    show(rt, b"33 places", sized(33, 0, 0))?;
    show(rt, b"65 transitions", sized(2, 65, 2))?;
    show(rt, b"17 arcs", sized(2, 1, 17))?;
    show(rt, b"33 places, the 32nd out of its domain", crowded(33))?;
    show(rt, b"31 places, the 32nd out of its domain", crowded(31))?;
    show(rt, b"unused slots littered", sample_in(littered()))
}

fn rates(rt: &impl Print) -> io::Result<()> {
    show(rt, b"rate NaN", paced(0.0 / 0.0, 1.0))?;
    show(rt, b"rate -0 and delay -0", paced(-0.0, -0.0))?;
    show(rt, b"rate 2^-1074", paced(5e-324, 1.0))?;
    show(rt, b"rate 2^100", paced(1.2676506002282294e30, 1.0))?;
    show(rt, b"delay NaN", paced(1.0, 0.0 / 0.0))?;
    show(rt, b"delay below 0", paced(1.0, -5e-324))?;
    show(rt, b"delay 2^30", paced(1.0, 1073741824.0))
}

fn arcs(rt: &impl Print) -> io::Result<()> {
    show(rt, b"place 2 of 2", arc(sample(), 1, net::PUT, 2, 1))?;
    show(
        rt,
        b"place 2 of 2 with too large a weight",
        arc(sample(), 1, net::PUT, 2, 1_000_001),
    )?;
    show(
        rt,
        b"too large a weight",
        arc(sample(), 1, net::PUT, 1, 1_000_001),
    )?;
    show(rt, b"kind 5", arc(sample(), 1, 5, 1, 1))?;
    show(
        rt,
        b"one place taken twice",
        arc(sample(), 1, net::TAKE, 0, 1),
    )?;
    show(
        rt,
        b"one place taken and read",
        arc(sample(), 1, net::READ, 0, 1),
    )?;
    show(
        rt,
        b"taken twice, too large a weight",
        arc(sample(), 1, net::TAKE, 0, 1_000_001),
    )?;
    show(
        rt,
        b"a delay with no take",
        arc(sample(), 0, net::READ, 0, 1),
    )?;
    show(
        rt,
        b"a delay of 2^-1074 with no take",
        arc(paced(1.0, 5e-324), 0, net::READ, 0, 1),
    )?;
    show(
        rt,
        b"no delay, no take",
        arc(paced(1.0, 0.0), 0, net::READ, 0, 1),
    )?;
    show(
        rt,
        b"kinetic total 16",
        arc(sample(), 0, net::KINETIC_TAKE, 0, 16),
    )?;
    show(
        rt,
        b"kinetic total 17, by a weight of 0",
        arc(
            arc(sample(), 0, net::KINETIC_TAKE, 0, 16),
            1,
            net::KINETIC_TAKE,
            1,
            0,
        ),
    )?;
    show(
        rt,
        b"a take of 17, not kinetic",
        arc(sample(), 0, net::TAKE, 0, 17),
    )
}

fn main(rt: HostRuntime) -> io::Result<()> {
    counts(&rt)?;
    labels(&rt)?;
    rates(&rt)?;
    arcs(&rt)
}
