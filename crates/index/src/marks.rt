// Words of transitions that the net alone decides: the timed ones, and those that take several tokens kinetically.
ghost use Rattle.std.specs.Prelude.{◌≡◌, ◌&&◌, ◌≤◌, eqb, ltb};
ghost use Rattle.net.specs.Net as Reader;
ghost use Rattle.net.specs.Readable as Record;
ghost use Rattle.net.specs.Record.{net_of};
ghost use Rattle.net.specs.Tests as Tests;
ghost use Rattle.net.specs.declared.Net.{Net as NetRecord};
ghost use Rattle.engine.specs.Engine as Engine;
ghost use Rattle.engine.specs.Traits as Traits;
ghost use Rattle.index.specs.Slots as Slots;

use engine::sets;
use net::LentNet;

// Those that run by a timer.
pub fn timed_word(net: &LentNet) -> u64
    requires { let net = net_of net.now in net.transitions ≤ 64 }
    ensures { let net = net_of net.now in Traits.Marks net Reader.timed result }
{
    let mut word: u64 = 0;
    for j in 0..net.transitions {
        word = sets::joined(word, j, 0.0 < net.delay[j]);
    }
    word
}

// Is a slot a kinetic take of several tokens?
fn heavy_slot(kind: u64, weight: u64) -> bool
    ensures { result ≡ (eqb kind 0 && ltb 1 (Reader.amount weight)) }
{
    if kind == net::KINETIC_TAKE {
        return 1 < weight;
    }
    false
}

// Is one of the slots from `from` to before `end`?
fn heavy_slots(net: &LentNet, from: usize, end: usize) -> bool
    requires { end ≤ 1024 }
    ensures { result ≡ Tests.any Traits.heavy (Record.takes_of (Slots.span net.now.kind.now net.now.place.now net.now.weight.now from end)) }
{
    for a in from..end {
        if heavy_slot(net.kind[a], net.weight[a]) {
            return true;
        }
    }
    false
}

// Those that take several tokens kinetically.
pub fn heavy_word(net: &LentNet) -> u64
    requires { let net = net_of net.now in Engine.Tidy net }
    ensures { let net = net_of net.now in Traits.Marks net Traits.takes_several result }
{
    let mut word: u64 = 0;
    for j in 0..net.transitions {
        let from = 16 * j;
        word = sets::joined(word, j, heavy_slots(net, from, from + net.arcs[j]));
    }
    word
}
