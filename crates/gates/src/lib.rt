// What a continuous run cannot express: reads, inhibitors, takes that are not kinetic, capacities that bound, delays.
#![tactic(auto)]

ghost use Rattle.std.specs.Prelude.{◌≡◌, ◌+◌, ◌-◌, ◌*◌, ◌<◌, ◌≤◌};
ghost use Rattle.net.specs.Tests as Tests;
ghost use Rattle.net.specs.Readable as Record;
ghost use Rattle.net.specs.Record.{net_of};
ghost use Rattle.net.specs.Sound as Sound;
ghost use Rattle.gates.specs.Gated as Spec;
ghost use Rattle.gates.specs.Slots as Slots;

use engine::slots;
use net::LentNet;

// How many reads, inhibitors and takes that are not kinetic there are, the bounded places as the bits of a mask (place p is bit p), and whether a
// transition is delayed.
#[derive(Clone, Copy)]
pub struct Gates {
    pub reads: u64,
    pub inhibitors: u64,
    pub nonkinetic: u64,
    pub bounded: u64,
    pub delayed: bool,
}

#[derive(Clone, Copy)]
enum Gate {
    Read,
    Inhibitor,
    NonKinetic,
}

impl Gate {
    // Is an arc of this kind of that sort?
    fn is(self, kind: u64) -> bool
        ensures { result ≡ Slots.sort_of self kind }
    {
        match self {
            Gate::Read => kind == net::READ,
            Gate::Inhibitor => net::BLOCK <= kind,
            Gate::NonKinetic => kind == net::TAKE,
        }
    }
}

// The arcs of that sort in the slots from `from` to before `end`.
fn count_slots(gate: Gate, net: &LentNet, from: usize, end: usize) -> u64
    requires { end ≤ 1024 }
    ensures { result ≡ Slots.count_if (Slots.sort_of gate) (Record.slots net.now.kind.now net.now.place.now net.now.weight.now from (end - from)) }
{
    let mut n: u64 = 0;
    for a in from..end {
        if gate.is(net.kind[a]) {
            n += 1;
        }
    }
    n
}

// The arcs of that sort in all transitions.
fn count(gate: Gate, net: &LentNet) -> u64
    requires { let net = net_of net.now in Sound.Sound net }
    ensures { let net = net_of net.now in result ≡ Slots.count_from (Slots.sort_of gate) net 0 net.transitions }
{
    let mut n: u64 = 0;
    for j in 0..net.transitions {
        let from = 16 * j;
        n += count_slots(gate, net, from, from + net.arcs[j]);
    }
    n
}

// Does some transition put more into place p than it takes from it?
fn raised(net: &LentNet, p: usize) -> bool
    requires { let net = net_of net.now in Sound.Sound net }
    ensures { let net = net_of net.now in result ≡ Tests.any (Spec.raises p) (Record.transitions_from net 0 net.transitions) }
{
    for j in 0..net.transitions {
        let from = 16 * j;
        let c = slots::change_at(net, from, from + net.arcs[j], p);
        if c.taken < c.put {
            return true;
        }
    }
    false
}

// Has place p a capacity that bounds it?
fn bounded_at(net: &LentNet, p: usize) -> bool
    requires { let net = net_of net.now in (p < 32) × Sound.Sound net }
    ensures { let net = net_of net.now in result ≡ Slots.bounded_at net p }
{
    0 < net.capacity[p] && raised(net, p)
}

// The bounded places, as the bits of a mask.
fn bounded_mask(net: &LentNet) -> u64
    requires { let net = net_of net.now in Sound.Sound net }
    ensures { let net = net_of net.now in result ≡ Slots.mask_from net 0 net.places }
{
    let mut mask: u64 = 0;
    for p in 0..net.places {
        if bounded_at(net, p) {
            mask += 1 << p;
        }
    }
    mask
}

// All that gates the net whose fields are lent.
pub fn gates_of(net: &LentNet) -> Gates
    requires { let net = net_of net.now in Sound.Sound net }
    ensures { let net = net_of net.now in Spec.gates_of result ≡ Spec.gates (Record.readable net) }
{
    Gates {
        reads: count(Gate::Read, net),
        inhibitors: count(Gate::Inhibitor, net),
        nonkinetic: count(Gate::NonKinetic, net),
        bounded: bounded_mask(net),
        delayed: slots::any_timed(net.transitions, net.delay),
    }
}

// Does anything gate it?
pub fn is_gated(g: Gates) -> bool
    ensures { result ≡ Spec.gated (Spec.gates_of g) }
{
    0 < g.reads || 0 < g.inhibitors || 0 < g.nonkinetic || 0 < g.bounded || g.delayed
}
