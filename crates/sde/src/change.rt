// The net changes of the transitions as floats, once a call: that of transition j at place p is cell 32 * j + p.
ghost use Rattle.std.specs.Prelude.{◌≡◌, ◌+◌, ◌-◌, ◌*◌, ◌/◌, ◌%◌, ◌<◌, ◌≤◌, length};
ghost use Rattle.net.specs.Net as Reader;
ghost use Rattle.net.specs.Readable as Record;
ghost use Rattle.net.specs.Record.{net_of};
ghost use Rattle.net.specs.Sound as Sound;
ghost use Rattle.sde.specs.Diffusion as Diffusion;
ghost use Rattle.sde.specs.Slots as Slots;

use engine::slots;
use net::LentNet;

// d less what one slot takes from place p.
fn less(d: f64, kind: u64, place: usize, weight: u64, p: usize) -> f64
    requires { weight ≤ 1_000_000 }
    ensures { result ≡ Slots.less_slot d kind place weight p }
{
    if kind <= net::TAKE && place == p {
        return d - (slots::amount(weight) as f64);
    }
    d
}

// d and what one slot puts into place p.
fn more(d: f64, kind: u64, place: usize, weight: u64, p: usize) -> f64
    requires { weight ≤ 1_000_000 }
    ensures { result ≡ Slots.more_slot d kind place weight p }
{
    if kind == net::PUT && place == p {
        return d + (slots::amount(weight) as f64);
    }
    d
}

// 0 less what the slots from `from` to before `end` take from place p.
fn less_takes(net: &LentNet, from: usize, end: usize, p: usize) -> f64
    requires { (end ≤ 1024) × Slots.Light from end net.now.weight.now }
    ensures { result ≡ Diffusion.less_takes p Reader.zero64 (Record.takes_of (Record.slots net.now.kind.now net.now.place.now net.now.weight.now from (end - from))) }
{
    let mut d = 0.0;
    for a in from..end {
        d = less(d, net.kind[a], net.place[a], net.weight[a], p);
    }
    d
}

// What they put there, on top of first.
fn plus_puts(net: &LentNet, from: usize, end: usize, p: usize, first: f64) -> f64
    requires { (end ≤ 1024) × Slots.Light from end net.now.weight.now }
    ensures { result ≡ Diffusion.plus_puts p first (Record.arcs_of Record.is_put (Record.slots net.now.kind.now net.now.place.now net.now.weight.now from (end - from))) }
{
    let mut d = first;
    for a in from..end {
        d = more(d, net.kind[a], net.place[a], net.weight[a], p);
    }
    d
}

// The net change of cell c.
fn change_of(net: &LentNet, c: usize) -> f64
    requires { let net = net_of net.now in (c < 32 * net.transitions) × Sound.Sound net }
    ensures { let net = net_of net.now in result ≡ Slots.change_of net c }
{
    let j = c / 32;
    let p = c % 32;
    let from = 16 * j;
    let end = from + net.arcs[j];
    let d = less_takes(net, from, end, p);
    plus_puts(net, from, end, p, d)
}

// Fills the table of net changes.
pub fn fill_changes(net: &LentNet, changes: &mut [f64; 2048])
    requires { let net = net_of net.now in Sound.Sound net }
    ensures { let net = net_of net.now in Slots.Changes net changes.new }
{
    for c in 0..32 * net.transitions {
        changes[c] = change_of(net, c);
    }
}

// The first place from p on that is changed, or one past the last place; the changes are the cells from `from` on.
fn next_changed(changes: &[f64; 2048], places: usize, from: usize, p: usize) -> usize
    requires { (places ≤ 32) × (from ≤ 2016) }
    ensures { Slots.Skip places from changes.now p result }
{
    for q in p..places {
        if changes[from + q] != 0.0 {
            return q;
        }
    }
    places.max(p)
}

// Fills the table of skips: cell 33 * j + p is the next place from p on that transition j changes.
pub fn fill_skips(
    changes: &[f64; 2048],
    places: usize,
    transitions: usize,
    skips: &mut [usize; 2112],
)
    requires { (places ≤ 32) × (transitions ≤ 64) }
    ensures { Slots.Skips places transitions changes.now skips.new }
{
    for c in 0..33 * transitions {
        skips[c] = next_changed(changes, places, 32 * (c / 33), c % 33);
    }
}
