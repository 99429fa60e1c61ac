// Where a new timer goes in a list of n that starts at place start, counted from the start, and the place opened for it.
ghost use Rattle.std.specs.Prelude.{◌+◌, ◌<◌, ◌≤◌};
ghost use Rattle.timers.specs.Slots as Slots;
ghost use Rattle.timers.specs.Turning as Turning;

use crate::slots;

// In front of the first one that completes later.
fn front_place(ats: &[f64; 256], start: usize, n: usize, at: f64) -> usize
    requires { n ≤ 256 }
    ensures { Slots.FirstLater at start (start + result) (start + n) ats.now }
{
    for i in 0..n {
        let k = slots::slot(start, i);
        if at < ats[k] {
            return i;
        }
    }
    n
}

// Behind the last one that does not complete later, from the end on: those that do move one place up. With equal delays none does.
fn open_from_end(
    ats: &mut [f64; 256],
    owners: &mut [u64; 512],
    start: usize,
    n: usize,
    at: f64,
) -> usize
    requires { n < 256 }
    ensures place { Slots.LastEarlier at start (start + result) (start + n) ats.old }
    ensures moved { Slots.MovedUp start (start + result) (start + n) (Turning.held ats.old owners.old) (Turning.held ats.new owners.new) }
{
    for i in (0..n).rev() {
        let x = slots::read(ats, owners, slots::slot(start, i));
        if at < x.at {
            slots::write(ats, owners, slots::slot(start, i + 1), x);
        } else {
            return i + 1;
        }
    }
    0
}

// From the end where the list is known to be in order, where both are one place; else from the front.
pub fn open_place(
    ats: &mut [f64; 256],
    owners: &mut [u64; 512],
    ordered: bool,
    start: usize,
    n: usize,
    at: f64,
) -> usize
    requires { n < 256 }
    ensures place { Slots.LookedFor ordered at start (start + result) (start + n) ats.old }
    ensures moved { Slots.MovedUp start (start + result) (start + n) (Turning.held ats.old owners.old) (Turning.held ats.new owners.new) }
{
    if ordered {
        return open_from_end(ats, owners, start, n, at);
    }
    let i = front_place(ats, start, n, at);
    slots::make_room(ats, owners, start, i, n);
    i
}
