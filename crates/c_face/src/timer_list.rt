// The timer list that turns, for the tests: the ring in three numbers (its start, its length, and 1 where its list is known to be in order), a timer in three
// (its completion time, its transition, and the weight that its start took).
ghost use Rattle.std.specs.Prelude.{◌≡◌, get_or};
ghost use Rattle.rules.specs.Timers as Timers;
ghost use Rattle.timers.specs.Turning as Turning;
ghost use Rattle.timers.specs.Queues as Queues;
ghost use Rattle.c_face.specs.Listed as Listed;

use timers::queue::Queue;
use timers::{Ring, Timer, queue};

// A ring, left in its three numbers.
fn leave(ring: Ring, start: &mut usize, len: &mut usize, ordered: &mut u64)
    ensures { Listed.ring start.new len.new ordered.new ≡ ring }
{
    *start = ring.start;
    *len = ring.len;
    *ordered = ring.ordered;
}

// Whether a timer was taken.
#[unsafe(no_mangle)]
pub extern "C" fn cild_timer_insert(
    ats: &mut [f64; 256],
    owners: &mut [u64; 512],
    start: &mut usize,
    len: &mut usize,
    ordered: &mut u64,
    room: usize,
    at: f64,
    who: usize,
    taken: u64,
) -> bool
    ensures { Turning.InsertedIn room (Listed.timer at who taken)
        ats.old owners.old (Listed.ring start.old len.old ordered.old)
        ats.new owners.new (Listed.ring start.new len.new ordered.new) result }
{
    let ring = Ring {
        start: *start,
        len: *len,
        ordered: *ordered,
    };
    let x = Timer { at, who, taken };
    match timers::insert(ats, owners, ring, room, x) {
        Some(after) => {
            leave(after, start, len, ordered);
            true
        }
        None => false,
    }
}

// The ring without its first timer.
#[unsafe(no_mangle)]
pub extern "C" fn cild_timer_remove(start: &mut usize, len: &mut usize, ordered: &mut u64)
    ensures { Turning.RemovedFrom (Listed.ring start.old len.old ordered.old)
        (Listed.ring start.new len.new ordered.new) }
{
    let after = timers::remove_first(Ring {
        start: *start,
        len: *len,
        ordered: *ordered,
    });
    leave(after, start, len, ordered);
}

// The completion time of the first timer; its transition and weight are left.
#[unsafe(no_mangle)]
pub extern "C" fn cild_timer_first<'a>(
    ats: &'a [f64; 256],
    owners: &'a [u64; 512],
    start: usize,
    len: usize,
    ordered: u64,
    who: &mut usize,
    taken: &mut u64,
) -> f64
    ensures { Listed.timer result who.new taken.new
        ≡ Timers.first (Turning.timers_of ats.now owners.now (Listed.ring start len ordered)) }
{
    let ring = Ring {
        start,
        len,
        ordered,
    };
    let x = timers::first(ats, owners, ring);
    *who = x.who;
    *taken = x.taken;
    x.at
}

// The completion time of timer i; its transition and weight are left.
#[unsafe(no_mangle)]
pub extern "C" fn cild_timer_at<'a>(
    ats: &'a [f64; 256],
    owners: &'a [u64; 512],
    start: usize,
    len: usize,
    ordered: u64,
    i: usize,
    who: &mut usize,
    taken: &mut u64,
) -> f64
    ensures { Listed.timer result who.new taken.new
        ≡ get_or (Turning.timers_of ats.now owners.now (Listed.ring start len ordered)) i Turning.idle }
{
    let ring = Ring {
        start,
        len,
        ordered,
    };
    let x = timers::timer_at(ats, owners, ring, i);
    *who = x.who;
    *taken = x.taken;
    x.at
}

// A list handed in, the first timer first.
#[unsafe(no_mangle)]
pub extern "C" fn cild_timers_in<'a>(
    ats: &mut [f64; 256],
    owners: &mut [u64; 512],
    start: &mut usize,
    len: &mut usize,
    ordered: &mut u64,
    times: &'a [f64; 256],
    whos: &'a [usize; 256],
    takens: &'a [u64; 256],
    many: usize,
)
    ensures { Queues.HandedIn (Listed.queue times.now whos.now takens.now many)
        ats.old owners.old ats.new owners.new
        (Listed.ring start.new len.new ordered.new) }
{
    let list = Queue {
        ats: *times,
        whos: *whos,
        takens: *takens,
        len: many,
    };
    let after = queue::hand_in(ats, owners, list);
    leave(after, start, len, ordered);
}

// A list handed out, the first timer first; how many timers it has.
#[unsafe(no_mangle)]
pub extern "C" fn cild_timers_out<'a>(
    ats: &'a [f64; 256],
    owners: &'a [u64; 512],
    start: usize,
    len: usize,
    ordered: u64,
    times: &mut [f64; 256],
    whos: &mut [usize; 256],
    takens: &mut [u64; 256],
) -> usize
    ensures { Queues.HandedOut ats.now owners.now (Listed.ring start len ordered)
        (Listed.queue times.new whos.new takens.new result) }
{
    let ring = Ring {
        start,
        len,
        ordered,
    };
    let list = queue::hand_out(ats, owners, ring);
    let a = list.ats;
    let w = list.whos;
    let t = list.takens;
    *times = a;
    *whos = w;
    *takens = t;
    list.len
}
