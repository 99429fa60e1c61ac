// The counts: which transitions they enable, in how many ways, and what a transition does to them.
ghost use Rattle.std.specs.Prelude.{◌≡◌, ◌+◌, ◌^◌, ◌<◌, ◌≤◌, min, eqb, leb, is_some, IfSome};
ghost use Rattle.std.specs.Float.{binary64};
ghost use Rattle.std.specs.Float.Ieee.{mul, lt, eq};
ghost use Rattle.net.specs.Net as Reader;
ghost use Rattle.net.specs.Readable as Record;
ghost use Rattle.net.specs.Record.{net_of};
ghost use Rattle.net.specs.declared.Net.{Net as NetRecord};
ghost use Rattle.rules.specs.Enabled as Enabled;
ghost use Rattle.rules.specs.Propensity as Propensity;
ghost use Rattle.rules.specs.Moments as Moments;
ghost use Rattle.rules.specs.Moves as Moves;
ghost use Rattle.engine.specs.Engine as Engine;
ghost use Rattle.engine.specs.Guards as Guards;
ghost use Rattle.engine.specs.Limits as Limits;
ghost use Rattle.engine.specs.declared.marking.Added.{Added};
ghost use Rattle.engine.specs.declared.marking.Fired.{Fired};

use crate::{guards, slots};
use net::LentNet;

// Does a slot of this limit let its transition run, at the count of its place? Below 2^63 it is an upper limit, else 2^64 less a lower one (specs/Limits);
// compiled, the two are one comparison.
fn slot_open(limit: u64, count: u64) -> bool
    ensures { result ≡ Limits.slot_open limit count }
{
    if limit < 0x8000_0000_0000_0000 {
        return count < limit;
    }
    0xFFFF_FFFF_FFFF_FFFF - count < limit
}

// May transition j run, at these counts? By the table of limits; slots behind a stop are puts without a limit.
pub fn enabled<'a>(net: &LentNet, limit: &'a [u64; 1024], counts: &[u64; 32], j: usize) -> bool
    requires { let net = net_of net.now in (j < net.transitions) × Engine.Tidy net × Limits.Limits net limit.now × Engine.Counts counts.now }
    ensures { let net = net_of net.now in result ≡ Enabled.enabled (Record.readable net) (Engine.marking net.places counts.now) (Record.transition net j) }
{
    let from = 16 * j;
    let end = from + net.arcs[j];
    for a in from..end {
        let l = limit[a];
        if !slot_open(l, counts[net.place[a]]) {
            return l == slots::STOP;
        }
    }
    true
}

// How many ways there are to choose w of m tokens, as a float.
fn ways(m: u64, w: u64) -> f64
    requires { (m ≤ 2 ^ 53) × (w ≤ 1_000_000) }
    ensures { result ≡ Propensity.ways m w }
{
    combinations::combinations_unflagged(m as i64, w as i64).unwrap_or(0.0 / 0.0)
}

// The rate of a transition: 0 where it runs by a timer, and 1 where none is given.
pub fn rate_of(rate: f64, delay: f64) -> f64
    ensures { result ≡ Reader.pick (lt Reader.zero64 delay) Reader.zero64 (Reader.pick (eq rate Reader.zero64) Reader.one64 rate) }
{
    if 0.0 < delay {
        return 0.0;
    }
    if rate == 0.0 {
        return 1.0;
    }
    rate
}

// x times the ways of one slot, at the count of its place: only a kinetic take has them. Its limit is 2^64 less what it takes (specs/Limits); a single token is
// taken in as many ways as there are tokens.
pub fn times(x: f64, kind: u64, limit: u64, count: u64) -> f64
    requires { (count ≤ 2 ^ 53) × (kind ≡ 0 → Limits.at_least 1_000_000 ≤ limit) }
    ensures { result ≡ Reader.pick (eqb kind 0) (mul binary64 x (Propensity.ways count (Limits.at_least limit))) x }
{
    if kind == net::KINETIC_TAKE {
        if limit == 0xFFFF_FFFF_FFFF_FFFF {
            return x * (count as i64 as f64);
        }
        return x * ways(count, 0xFFFF_FFFF_FFFF_FFFF - limit + 1);
    }
    x
}

// What a slot takes from a count: all of it where that is less than it wants, as a difference of the rules stops at 0.
fn taken_from(count: u64, kind: u64, weight: u64) -> u64
    ensures { result ≡ min count (Reader.pick (leb kind 1) (Reader.amount weight) 0) }
{
    if kind <= net::TAKE {
        return count.min(slots::amount(weight));
    }
    0
}

// How much less the places hold, the transitions whose ways that may change, and those of which it may open or shut a slot.
#[derive(Clone, Copy)]
pub struct Taken {
    pub less: u64,
    pub moved: u64,
    pub crossed: u64,
}

// Takes what transition j takes.
pub fn take<'a>(net: &LentNet, guards: &'a [u64; 160], counts: &mut [u64; 32], j: usize) -> Taken
    requires { let net = net_of net.now in (j < 64) × (net.places ≤ 32) × Engine.AtMost 16 net.arcs × Engine.Below net.places net.place × Engine.AtMost 1_000_000 net.weight × Engine.Counts counts.old }
    ensures { let net = net_of net.now in (Engine.marking net.places counts.new ≡ Moves.taking (Engine.marking net.places counts.old) (Record.takes_of (Record.slots_of net j)))
        × Engine.Counts counts.new × (result.less ≤ 16_000_000)
        × (Moments.sum_of (Engine.marking net.places counts.old) ≡ Moments.sum_of (Engine.marking net.places counts.new) + result.less)
        × Guards.Told Guards.takes_on net j guards.now counts.old counts.new result.moved result.crossed }
{
    let from = 16 * j;
    let end = from + net.arcs[j];
    let mut less: u64 = 0;
    let mut moved: u64 = 0;
    let mut crossed: u64 = 0;
    for a in from..end {
        let p = net.place[a];
        let c = counts[p];
        let x = taken_from(c, net.kind[a], net.weight[a]);
        if 0 < x {
            let low = c - x;
            counts[p] = low;
            less += x;
            moved |= guards[p];
            crossed |= guards::crossed(guards, p, low, c);
        }
    }
    Taken {
        less,
        moved,
        crossed,
    }
}

// What a slot puts.
fn given(kind: u64, weight: u64) -> u64
    ensures { result ≡ Reader.pick (Record.is_put kind) (Reader.amount weight) 0 }
{
    if kind == net::PUT {
        return slots::amount(weight);
    }
    0
}

// How much more the places hold, and the transitions as for `Taken`.
#[derive(Clone, Copy)]
pub struct Added {
    pub more: u64,
    pub moved: u64,
    pub crossed: u64,
}

// Puts what transition j puts. Where a count would pass 2^53 it answers None, and the counts are of no use.
pub fn put<'a>(
    net: &LentNet,
    guards: &'a [u64; 160],
    counts: &mut [u64; 32],
    j: usize,
) -> Option<Added>
    requires { let net = net_of net.now in (j < 64) × (net.places ≤ 32) × Engine.AtMost 16 net.arcs × Engine.Below net.places net.place × Engine.AtMost 1_000_000 net.weight × Engine.Counts counts.old }
    ensures puts { let net = net_of net.now in Engine.PutBy (is_some result)
        (Moves.putting (Engine.marking net.places counts.old) (Record.arcs_of Record.is_put (Record.slots_of net j))) (Engine.marking net.places counts.new) }
    ensures small { Engine.Counts counts.new }
    ensures told { let net = net_of net.now in IfSome result (λ (x : Added).
        (Moments.sum_of (Engine.marking net.places counts.new) ≡ Moments.sum_of (Engine.marking net.places counts.old) + x.more) × (x.more ≤ 16_000_000)
        × Guards.Told Guards.puts_on net j guards.now counts.old counts.new x.moved x.crossed) }
{
    let from = 16 * j;
    let end = from + net.arcs[j];
    let mut many: u64 = 0;
    let mut moved: u64 = 0;
    let mut crossed: u64 = 0;
    for a in from..end {
        let p = net.place[a];
        let x = given(net.kind[a], net.weight[a]);
        if 0 < x {
            let c = counts[p];
            let d = c + x;
            if 9_007_199_254_740_992 < d {
                return None;
            }
            counts[p] = d;
            many += x;
            moved |= guards[p];
            crossed |= guards::crossed(guards, p, c, d);
        }
    }
    Some(Added {
        more: many,
        moved,
        crossed,
    })
}

// How much the places have lost, how much they have got, and the transitions as for `Taken`.
#[derive(Clone, Copy)]
pub struct Fired {
    pub less: u64,
    pub more: u64,
    pub moved: u64,
    pub crossed: u64,
}

// Transition j fires: it takes, and then it puts. One way through its slots does both, since its puts stand behind all others. Where a count would pass 2^53
// it answers None, and the counts are of no use.
pub fn fire<'a>(
    net: &LentNet,
    guards: &'a [u64; 160],
    counts: &mut [u64; 32],
    j: usize,
) -> Option<Fired>
    requires { let net = net_of net.now in (j < 64) × (net.places ≤ 32) × Engine.AtMost 16 net.arcs × Engine.Below net.places net.place × Engine.AtMost 1_000_000 net.weight × Engine.Counts counts.old
        × Engine.PutsLast (Record.slots_of net j) }
    ensures moves { let net = net_of net.now in Engine.PutBy (is_some result)
        (Moves.putting (Moves.taking (Engine.marking net.places counts.old) (Record.takes_of (Record.slots_of net j))) (Record.arcs_of Record.is_put (Record.slots_of net j)))
        (Engine.marking net.places counts.new) }
    ensures small { Engine.Counts counts.new }
    ensures told { let net = net_of net.now in IfSome result (λ (x : Fired).
        (Moments.sum_of (Engine.marking net.places counts.new) + x.less ≡ Moments.sum_of (Engine.marking net.places counts.old) + x.more) × (x.more ≤ 16_000_000)
        × Guards.Told Guards.moves_on net j guards.now counts.old counts.new x.moved x.crossed) }
{
    let from = 16 * j;
    let end = from + net.arcs[j];
    let mut less: u64 = 0;
    let mut more: u64 = 0;
    let mut moved: u64 = 0;
    let mut crossed: u64 = 0;
    for a in from..end {
        let p = net.place[a];
        let k = net.kind[a];
        let c = counts[p];
        if k == net::PUT {
            let x = slots::amount(net.weight[a]);
            let d = c + x;
            if 9_007_199_254_740_992 < d {
                return None;
            }
            counts[p] = d;
            more += x;
            moved |= guards[p];
            crossed |= guards::crossed(guards, p, c, d);
        } else {
            let y = taken_from(c, k, net.weight[a]);
            if 0 < y {
                let low = c - y;
                counts[p] = low;
                less += y;
                moved |= guards[p];
                crossed |= guards::crossed(guards, p, low, c);
            }
        }
    }
    Some(Fired {
        less,
        more,
        moved,
        crossed,
    })
}
