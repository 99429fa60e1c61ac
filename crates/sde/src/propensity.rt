// The propensity of a transition at a state of real numbers.
ghost use Rattle.std.specs.Prelude.{◌≡◌, ℕ, ◌-◌, ◌*◌, ◌+◌, ◌<◌, ◌≤◌};
ghost use Rattle.std.specs.Float.{binary64};
ghost use Rattle.std.specs.Float.Ieee.{mul};
ghost use Rattle.std.proofs.Math.ListN as ListN;
ghost use Rattle.net.specs.Net as Reader;
ghost use Rattle.net.specs.Readable as Record;
ghost use Rattle.net.specs.Record.{net_of};
ghost use Rattle.sde.specs.Diffusion as Diffusion;
ghost use Rattle.sde.specs.Slots as Slots;

use crate::run::Run;
use engine::marking;
use net::LentNet;

// How many ways there are to choose w of x, as a float.
fn ways(x: f64, w: u64) -> f64
    requires { w ≤ 1_000_000 }
    ensures { result ≡ Diffusion.ways_at x w }
{
    combinations::combinations_real(x, w as i64).unwrap_or(0.0 / 0.0)
}

// a times the ways of a kinetic take of this weight, at the value v of its place. A weight of 1 has v ways.
fn times(a: f64, weight: u64, v: f64) -> f64
    requires { weight ≤ 1_000_000 }
    ensures { result ≡ mul binary64 a (Diffusion.ways_at v (Reader.amount weight)) }
{
    if weight <= 1 {
        return a * v;
    }
    a * ways(v, weight)
}

// A rate times the ways of the kinetic takes in the slots from `from` to before `end`; 0 as soon as that is 0 or less.
fn product(net: &LentNet, x: &[f64; 32], from: usize, end: usize, rate: f64) -> f64
    requires { (end ≤ 1024) × (net.now.places ≤ 32) × Slots.Light from end net.now.weight.now × Slots.Inside net.now.places from end net.now.place.now }
    ensures { result ≡ Diffusion.factored (ListN.take net.now.places x.now) rate
        (Diffusion.kinetic_of (Record.takes_of (Record.slots net.now.kind.now net.now.place.now net.now.weight.now from (end - from)))) }
{
    let mut a = rate;
    for s in from..end {
        if net.kind[s] == net::KINETIC_TAKE {
            a = times(a, net.weight[s], x[net.place[s]]);
            if a <= 0.0 {
                return 0.0;
            }
        }
    }
    a
}

// Tidies the rates, once a call.
pub fn fill_rates(net: &LentNet, rates: &mut [f64; 64])
    requires { net.now.transitions ≤ 64 }
    ensures { Slots.Tidied net.now.transitions net.now.rate.now net.now.delay.now rates.new }
{
    for j in 0..net.transitions {
        rates[j] = marking::rate_of(net.rate[j], net.delay[j]);
    }
}

// One past the last kinetic take of the slots from `from` to before `end`, or `from` where there is none.
fn kinetic_end(kind: &[u64; 1024], from: usize, end: usize) -> usize
    requires { (from ≤ end) × (end ≤ 1024) }
    ensures { Slots.KineticEnd kind.now from end result }
{
    let mut e = from;
    for a in from..end {
        if kind[a] == net::KINETIC_TAKE {
            e = a + 1;
        }
    }
    e
}

// Fills the table of ends, once a call: the slots from there on have no kinetic take.
pub fn fill_ends(net: &LentNet, ends: &mut [usize; 64])
    requires { (net.now.transitions ≤ 64) × ((j : ℕ) → j < net.now.transitions → ListN.get_or net.now.arcs.now j 0 ≤ 16) }
    ensures { Slots.EndsOf net.now.transitions net.now.arcs.now net.now.kind.now ends.new }
{
    for j in 0..net.transitions {
        let from = 16 * j;
        ends[j] = kinetic_end(net.kind, from, from + net.arcs[j]);
    }
}

// The propensity of transition j, at this state.
pub fn propensity(run: &Run, x: &[f64; 32], j: usize) -> f64
    requires { j < run.now.net.transitions }
    ensures { let net = net_of run.now.net in result ≡ Diffusion.propensity (ListN.take net.places x.now) (Record.transition net j) }
{
    product(&run.net, x, 16 * j, run.ends[j], run.net.rate[j])
}
