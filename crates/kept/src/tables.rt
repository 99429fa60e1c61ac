// What the net alone decides of its propensities, made once a call: the rates, and where the kinetic takes of a transition end.
ghost use Rattle.std.specs.Prelude.{◌≡◌, true, ◌⊎◌, ℕ, ◌+◌, ◌<◌, ◌≤◌, length, get_or};
ghost use Rattle.net.specs.Record.{net_of};
ghost use Rattle.net.specs.declared.Net.{Net as NetRecord};
ghost use Rattle.engine.specs.Engine as Engine;
ghost use Rattle.kept.specs.Kept as Kept;

use engine::marking;
use net::LentNet;

// What a call makes once from its net: the limits of its slots, the rates of the transitions, where the kinetic takes of each end, the index that a change of a
// count is tested by, and as words the delayed transitions and those that take several tokens kinetically.
#[derive(Clone, Copy)]
pub struct Tables {
    pub limit: [u64; 1024],
    pub rates: [f64; 64],
    pub ends: [usize; 64],
    pub guards: [u64; 160],
    pub timed: u64,
    pub heavy: u64,
}

// Tables that nothing has filled.
pub fn empty() -> Tables
    ensures { result ≡ Kept.blank }
{
    Tables {
        limit: [0; 1024],
        rates: [0.0; 64],
        ends: [0; 64],
        guards: [0; 160],
        timed: 0,
        heavy: 0,
    }
}

// Fills the table of rates.
pub fn rates_of(net: &LentNet, rates: &mut [f64; 64])
    requires { let net = net_of net.now in Engine.Tidy net × (length rates.old ≡ 64) }
    ensures { let net = net_of net.now in Kept.Rates net rates.new × (length rates.new ≡ 64) }
{
    for j in 0..net.transitions {
        rates[j] = marking::rate_of(net.rate[j], net.delay[j]);
    }
}

// The end of the slots from `from` to before `end`, up to the last kinetic take: walked from the last to the first.
fn end_of(kind: &[u64; 1024], from: usize, end: usize) -> usize
    requires { (from ≤ end) × (end ≤ 1024) }
    ensures { (result ≤ end) × ((a : ℕ) → result ≤ a → from ≤ a → a < end → get_or kind.now a 0 ≡ 0 → ⊥) }
{
    for a in (from..end).rev() {
        if kind[a] == net::KINETIC_TAKE {
            return a + 1;
        }
    }
    from
}

// In the table of ends: this and a place, for a transition whose ways are the count of that place.
pub const ALONE: usize = 2048;

// In the table of ends: for a transition whose ways are the counts of the places of its first two slots.
pub const TWO: usize = 4096;

// Is slot a a kinetic take of one token?
fn single(kind: &[u64; 1024], weight: &[u64; 1024], a: usize) -> bool
    requires { a < 1024 }
    ensures { result ≡ Kept.single kind.now weight.now a }
{
    kind[a] == net::KINETIC_TAKE && weight[a] <= 1
}

// What the table has for a transition whose slots begin at `from`, and whose kinetic takes end at `end`.
fn told(net: &LentNet, from: usize, end: usize) -> usize
    requires { (from < 1024) × (end ≤ 1024) × Engine.Below 32 net.now.place.now }
    ensures { (result ≡ end) ⊎ ((result ≡ 2048 + get_or net.now.place.now from 0) × (end ≡ from + 1) × (Kept.single net.now.kind.now net.now.weight.now from ≡ true))
        ⊎ ((result ≡ 4096) × (end ≡ from + 2) × (Kept.single net.now.kind.now net.now.weight.now from ≡ true) × (Kept.single net.now.kind.now net.now.weight.now (from + 1) ≡ true)) }
{
    if !single(net.kind, net.weight, from) {
        return end;
    }
    if end == from + 1 {
        return ALONE + net.place[from];
    }
    if end == from + 2 && single(net.kind, net.weight, from + 1) {
        return TWO;
    }
    end
}

// Fills the table of ends.
pub fn ends_of(net: &LentNet, ends: &mut [usize; 64])
    requires { let net = net_of net.now in Engine.Tidy net × (length ends.old ≡ 64) }
    ensures { let net = net_of net.now in Kept.Ends net ends.new × (length ends.new ≡ 64) }
{
    for j in 0..net.transitions {
        let from = 16 * j;
        let end = end_of(net.kind, from, from + net.arcs[j]);
        ends[j] = told(net, from, end);
    }
}
