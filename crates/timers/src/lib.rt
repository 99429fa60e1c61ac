// The running timers of a path, in the order in which they leave: a list that turns. 256 slots are lent, and the list is read from a movable start, wrapping
// at 256 (specs/Turning). Slot k is ats[k] with owners[2 k], its transition's number, and owners[2 k + 1], the weight that its start took. A start is taken
// modulo 256, and a length above 256 is 256: every function answers every input.
#![tactic(auto)]

mod opening;
pub mod queue;
mod slots;

ghost use Rattle.std.specs.Prelude.{◌≡◌, get_or, is_some};
ghost use Rattle.std.specs.Option.{unwrap_or};
ghost use Rattle.std.specs.Float.Ieee as Ieee;
ghost use Rattle.net.specs.Net.{pick};
ghost use Rattle.rules.specs.Timers as Timers;
ghost use Rattle.timers.specs.Turning as Turning;

// A running timer: its completion time, its transition's number, and the weight that its start took.
#[derive(Clone, Copy)]
pub struct Timer {
    pub at: f64,
    pub who: usize,
    pub taken: u64,
}

// The slots are lent apart from the ring: `remove_first` moves no entry because it is not lent them (RemovedFrom), and C lends them apart (`cild_timer_insert`).
// Where the list starts, how long it is, and 1 where its completion times are known to be in order: then a new timer's place is looked for from the end.
// That is a word, since the bytes that fill up a bool are copied apart from it, which made a step three times as long.
#[derive(Clone, Copy)]
pub struct Ring {
    pub start: usize,
    pub len: usize,
    pub ordered: u64,
}

// How many timers run.
pub fn count(ring: Ring) -> usize
    ensures { result ≡ Turning.running ring }
{
    slots::capped(ring.len)
}

// The ring of no timers, over any slots.
pub fn empty() -> Ring
    ensures { Turning.NoTimers result }
{
    Ring {
        start: 0,
        len: 0,
        ordered: 1,
    }
}

// Whether a list in order is known to be so with a new timer: a completion time that is no number is in no order.
fn still_ordered(ordered: u64, at: f64) -> u64
    ensures { result ≡ pick (Ieee.le at at) ordered 0 }
{
    if at <= at {
        return ordered;
    }
    0
}

// A new timer goes in front of the first one that completes later, so behind its equals; the ring after that. It is refused, and nothing is touched, if 256 run
// already, or as many as there is room for: then the ring stays.
pub fn insert(
    ats: &mut [f64; 256],
    owners: &mut [u64; 512],
    ring: Ring,
    room: usize,
    x: Timer,
) -> Option<Ring>
    ensures { Turning.InsertedIn room (Turning.timer_of x) ats.old owners.old ring
        ats.new owners.new (unwrap_or result ring) (is_some result) }
{
    let n = count(ring);
    if slots::capped(room) <= n {
        return None;
    }
    let start = ring.start;
    let at = x.at;
    let i = opening::open_place(ats, owners, ring.ordered == 1, start, n, at);
    slots::write(ats, owners, slots::slot(start, i), x);
    Some(Ring {
        start,
        len: n + 1,
        ordered: still_ordered(ring.ordered, at),
    })
}

// What is read where no timer runs: an infinite completion time.
fn idle() -> Timer
    ensures { Turning.timer_of result ≡ Turning.idle }
{
    Timer {
        at: f64::from_bits(0x7FF0_0000_0000_0000),
        who: 0,
        taken: 0,
    }
}

// The timer that is number i to leave, the first being 0.
pub fn timer_at<'a>(ats: &'a [f64; 256], owners: &'a [u64; 512], ring: Ring, i: usize) -> Timer
    ensures { Turning.timer_of result ≡ get_or (Turning.timers_of ats.now owners.now ring) i Turning.idle }
{
    if count(ring) <= i {
        return idle();
    }
    slots::read(ats, owners, slots::slot(ring.start, i))
}

// The timer that leaves first.
pub fn first<'a>(ats: &'a [f64; 256], owners: &'a [u64; 512], ring: Ring) -> Timer
    ensures { Turning.timer_of result ≡ Timers.first (Turning.timers_of ats.now owners.now ring) }
{
    timer_at(ats, owners, ring, 0)
}

// Removes it: the list starts one slot further, and no slot is touched.
pub fn remove_first(ring: Ring) -> Ring
    ensures { Turning.RemovedFrom ring result }
{
    let n = count(ring);
    if n == 0 {
        return ring;
    }
    Ring {
        start: slots::slot(ring.start, 1),
        len: n - 1,
        ordered: ring.ordered,
    }
}
