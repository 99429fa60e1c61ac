// The slots of a timer list: read, written, and moved up by one place.
ghost use Rattle.std.specs.Prelude.{◌≡◌, ◌+◌, ◌%◌, ◌<◌, ◌≤◌, min};
ghost use Rattle.timers.specs.Slots as Slots;
ghost use Rattle.timers.specs.Turning as Turning;

use crate::Timer;

// A number, or 256 if it is larger.
pub fn capped(n: usize) -> usize
    ensures { result ≡ min n 256 }
{
    n.min(256)
}

// The slot of place i of a list that starts at place start.
pub fn slot(start: usize, i: usize) -> usize
    requires { i ≤ 256 }
    ensures { result ≡ (start + i) % 256 }
{
    (start % 256 + i) % 256
}

// The timer of a slot.
pub fn read<'a>(ats: &'a [f64; 256], owners: &'a [u64; 512], k: usize) -> Timer
    requires { k < 256 }
    ensures { Turning.timer_of result ≡ Turning.held ats.now owners.now k }
{
    let w = 2 * k;
    let v = w + 1;
    Timer {
        at: ats[k],
        who: owners[w] as usize,
        taken: owners[v],
    }
}

// Sets the timer of a slot. The arrays are seen as slices once, which costs nothing: it is how the proof learns that they are 256 and 512 long.
pub fn write(ats: &mut [f64; 256], owners: &mut [u64; 512], k: usize, x: Timer)
    requires { k < 256 }
    ensures { Slots.Stored k (Turning.timer_of x) (Turning.held ats.old owners.old) (Turning.held ats.new owners.new) }
{
    let times: &[f64] = ats;
    let words: &[u64] = owners;
    let w = 2 * k;
    let v = w + 1;
    ats[k] = x.at;
    owners[w] = x.who as u64;
    owners[v] = x.taken;
}

// Moves the timers from place i of n on one place up.
pub fn make_room(ats: &mut [f64; 256], owners: &mut [u64; 512], start: usize, i: usize, n: usize)
    requires { (i ≤ n) × (n < 256) }
    ensures { Slots.MovedUp start (start + i) (start + n) (Turning.held ats.old owners.old) (Turning.held ats.new owners.new) }
{
    for k in (i..n).rev() {
        let x = read(ats, owners, slot(start, k));
        write(ats, owners, slot(start, k + 1), x);
    }
}
