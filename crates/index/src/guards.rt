// The table of the index as a path uses it: for each place the transitions that are listed for it, and what lets a change of its count pass most of them over.
ghost use Rattle.std.specs.Prelude.{◌≡◌, true, ◌+◌, ◌*◌, ◌<◌, ◌≤◌, eqb, length};
ghost use Rattle.net.specs.Record.{net_of};
ghost use Rattle.net.specs.declared.Net.{Net as NetRecord};
ghost use Rattle.engine.specs.Engine as Engine;
ghost use Rattle.engine.specs.Limits as Limits;
ghost use Rattle.engine.specs.Guards as Guards;
ghost use Rattle.index.specs.Guarding as Spec;

use crate::listed;
use engine::sets;
use net::LentNet;

// The count on one side of which a slot of that limit is open, and on the other shut.
fn threshold(limit: u64) -> u64
    ensures { result ≡ Guards.threshold limit }
{
    if limit < 0x8000_0000_0000_0000 {
        return limit;
    }
    0xFFFF_FFFF_FFFF_FFFF - limit + 1
}

// Can a count cross that threshold? That of 1 has a word of its own; counts stay at or below 2^53.
fn crossed(x: u64) -> bool
    ensures { Spec.Crossed x → result ≡ true }
{
    if x < 2 {
        return false;
    }
    x <= 0x0020_0000_0000_0000
}

// The smaller of two, if so; else the first.
fn lower(least: u64, x: u64, on: bool) -> u64
    ensures { (result ≤ least) × (on ≡ true → result ≤ x) }
{
    if on { least.min(x) } else { least }
}

// The larger of two, if so; else the first.
fn higher(most: u64, x: u64, on: bool) -> u64
    ensures { (most ≤ result) × (on ≡ true → x ≤ result) }
{
    if on { most.max(x) } else { most }
}

// Tells the table of a slot of transition j, of that kind and limit, at place p.
fn guard_slot(kind: u64, limit: u64, p: usize, j: usize, guards: &mut [u64; 160])
    requires { (p < 32) × (j < 64) × (length guards.old ≡ 160) }
    ensures { Spec.Guarded (eqb kind 0) (Guards.threshold limit) p j guards.old guards.new }
{
    let x = threshold(limit);
    let on = crossed(x);
    let takes = sets::joined(guards[p], j, kind == net::KINETIC_TAKE);
    let edges = sets::joined(guards[32 + p], j, x == 1);
    let least = lower(guards[96 + p], x, on);
    let most = higher(guards[128 + p], x, on);
    guards[p] = takes;
    guards[32 + p] = edges;
    guards[96 + p] = least;
    guards[128 + p] = most;
}

// Tells it of all slots of transition j.
fn guard_one<'a>(net: &LentNet, limit: &'a [u64; 1024], j: usize, guards: &mut [u64; 160])
    requires { let net = net_of net.now in (j < net.transitions) × Engine.Tidy net × Limits.Limits net limit.now × Spec.Guarding net guards.old (16 * j) }
    ensures { let net = net_of net.now in Spec.Guarding net guards.new (16 * (j + 1)) }
{
    let from = 16 * j;
    let end = from + net.arcs[j];
    for a in from..end {
        guard_slot(net.kind[a], limit[a], net.place[a], j, guards);
    }
}

// The table before any slot: the words of the places, and between the first and the last bound no number.
fn begun(words: &[u64; 32]) -> [u64; 160]
    ensures { Spec.Begun words.now result }
{
    let mut guards = [0u64; 160];
    for (p, w) in words.iter().enumerate() {
        guards[64 + p] = *w;
        guards[96 + p] = 0xFFFF_FFFF_FFFF_FFFF;
    }
    guards
}

// For place p: at p the transitions with a kinetic input on it, at 32 + p those with a slot there whose threshold is 1, at 64 + p all that are listed for it, and
// from 96 + p to 128 + p the numbers between which all other thresholds lie that a count can cross.
pub fn guards_of<'a>(net: &LentNet, limit: &'a [u64; 1024]) -> [u64; 160]
    requires { let net = net_of net.now in Engine.Tidy net × Limits.Limits net limit.now }
    ensures { let net = net_of net.now in Guards.Guards net result }
{
    let words = listed::listed_words(net);
    let mut guards = begun(&words);
    for j in 0..net.transitions {
        guard_one(net, limit, j, &mut guards);
    }
    guards
}
