// What a transition takes and puts, weighed: each amount counts as often as its place weighs.
ghost use Rattle.std.specs.Prelude.{◌≡◌, ◌-◌, ◌*◌, ◌≤◌, length};
ghost use Rattle.net.specs.Net as Reader;
ghost use Rattle.net.specs.Readable as Record;
ghost use Rattle.net.specs.Record.{net_of};
ghost use Rattle.net.specs.Sound as Sound;
ghost use Rattle.net.specs.declared.Net.{Net as NetRecord};
ghost use Rattle.rules.specs.Balance as Balance;
ghost use Rattle.engine.specs.Arcs as Arcs;
ghost use Rattle.balance.specs.Call as Call;
ghost use Rattle.balance.specs.Slots as Slots;

use engine::slots;
use net::LentNet;

// The largest weight of a place.
const MOST_WEIGHT: u64 = 1_000;

// Is a weight above 1,000?
pub fn some_above(weights: &[u64]) -> bool
    ensures { result ≡ Balance.some_above1000 weights.now }
{
    weights.iter().any(|w| MOST_WEIGHT < *w)
}

// What an arc of this weight moves, its place weighing w.
fn arc_weight(weight: u64, w: u64) -> u64
    requires { (weight ≤ 1_000_000) × (w ≤ 1_000) }
    ensures { result ≡ w * Reader.amount weight }
{
    let m = slots::amount(weight);
    w * m
}

// What a slot takes, its place weighing w.
fn taken_weight(kind: u64, weight: u64, w: u64) -> u64
    requires { (weight ≤ 1_000_000) × (w ≤ 1_000) }
    ensures { result ≡ Slots.taken_weight kind weight w }
{
    if kind <= net::TAKE {
        return arc_weight(weight, w);
    }
    0
}

// What a slot puts, its place weighing w.
fn put_weight(kind: u64, weight: u64, w: u64) -> u64
    requires { (weight ≤ 1_000_000) × (w ≤ 1_000) }
    ensures { result ≡ Slots.put_weight kind weight w }
{
    if kind == net::PUT {
        return arc_weight(weight, w);
    }
    0
}

// Do the slots from `from` to before `end` put as much weight as they take?
fn slots_even(net: &LentNet, from: usize, end: usize, weights: &[u64]) -> bool
    requires { (end ≤ 1024) × Arcs.Light from end net.now.weight.now × Slots.Placed from end net.now.place.now (length weights.now) × Slots.Small weights.now }
    ensures { result ≡ Slots.slots_even weights.now (Record.slots net.now.kind.now net.now.place.now net.now.weight.now from (end - from)) }
{
    let mut put: u64 = 0;
    let mut taken: u64 = 0;
    for a in from..end {
        let k = net.kind[a];
        let p = net.place[a];
        let m = net.weight[a];
        let w = weights[p];
        put = put + put_weight(k, m, w);
        taken = taken + taken_weight(k, m, w);
    }
    put == taken
}

// The lowest transition that does not put as much weight as it takes.
pub fn first_uneven(net: &LentNet, weights: &[u64]) -> Option<usize>
    requires { let net = net_of net.now in Sound.Sound net × (length weights.now ≡ net.places) × Slots.Small weights.now }
    ensures { let net = net_of net.now in Call.lowest result ≡ Balance.unbalanced (Record.readable net) weights.now }
{
    for j in 0..net.transitions {
        let from = 16 * j;
        let end = from + net.arcs[j];
        if !slots_even(net, from, end, weights) {
            return Some(j);
        }
    }
    None
}
