// Which propensities are rounded: those above 0 with an inexact binomial. Only a kinetic take of several tokens can have one.
ghost use Rattle.std.specs.Prelude.{◌≡◌, true, ◌&&◌, not, ◌^◌, ◌<◌, ◌≤◌, eqb};
ghost use Rattle.std.specs.Float.Ieee.{lt};
ghost use Rattle.net.specs.Net as Reader;
ghost use Rattle.net.specs.Readable as Record;
ghost use Rattle.net.specs.Record.{net_of};
ghost use Rattle.net.specs.declared.Net.{Net as NetRecord};
ghost use Rattle.rules.specs.Exact as Exact;
ghost use Rattle.engine.specs.Engine as Engine;

use net::LentNet;

// Does the float of the ways of one slot, at the count of its place, differ from their number? Only a kinetic take has them, and up to a bound by its weight
// they are exact.
fn inexact_slot(kind: u64, weight: u64, count: u64) -> bool
    requires { count ≤ 2 ^ 53 }
    ensures { result ≡ (eqb kind 0 && not (Exact.exact_ways count (Reader.amount weight))) }
{
    if kind == net::KINETIC_TAKE {
        if count <= combinations::unrounded(weight) {
            return false;
        }
        return !combinations::exact_ways(count, weight);
    }
    false
}

// Is a binomial among the factors of transition j inexact?
fn some_inexact(net: &LentNet, counts: &[u64; 32], j: usize) -> bool
    requires { let net = net_of net.now in (j < net.transitions) × Engine.Tidy net × Engine.Counts counts.now }
    ensures { let net = net_of net.now in result ≡ Exact.some_inexact (Engine.marking net.places counts.now) (Record.transition net j).takes }
{
    let from = 16 * j;
    let end = from + net.arcs[j];
    for a in from..end {
        if inexact_slot(net.kind[a], net.weight[a], counts[net.place[a]]) {
            return true;
        }
    }
    false
}

// Is a propensity of transition j rounded: above 0, with an inexact binomial?
pub fn rounded(net: &LentNet, counts: &[u64; 32], j: usize, a: f64) -> bool
    requires { let net = net_of net.now in (j < net.transitions) × Engine.Tidy net × Engine.Counts counts.now }
    ensures { let net = net_of net.now in result ≡ (lt Reader.zero64 a && Exact.some_inexact (Engine.marking net.places counts.now) (Record.transition net j).takes) }
{
    if 0.0 < a {
        return some_inexact(net, counts, j);
    }
    false
}
