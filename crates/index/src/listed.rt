// The index by place: a word for each place, in which bit j says that transition j is listed for it.
ghost use Rattle.std.specs.Prelude.{◌≡◌, ◌<◌, ◌≤◌, length, get_or};
ghost use Rattle.net.specs.Readable as Record;
ghost use Rattle.net.specs.Record.{net_of};
ghost use Rattle.net.specs.declared.Net.{Net as NetRecord};
ghost use Rattle.engine.specs.Engine as Engine;
ghost use Rattle.index.specs.Slots as Slots;
ghost use Rattle.index.specs.Table as Table;

use engine::{sets, slots};
use net::LentNet;

// Does slot a list its transition, whose slots are those from `from` to before `end`, for the slot's place?
fn lists(net: &LentNet, from: usize, end: usize, a: usize) -> bool
    requires { (a < end) × (end ≤ 1024) × Engine.Below 32 net.now.place.now × Engine.AtMost 1_000_000 net.now.weight.now }
    ensures { result ≡ Slots.lists net.now.capacity.now (Slots.span net.now.kind.now net.now.place.now net.now.weight.now from end)
        (get_or net.now.kind.now a 0) (get_or net.now.place.now a 0) }
{
    let k = net.kind[a];
    if k != net::PUT {
        return true;
    }
    let p = net.place[a];
    let q = net.capacity[p];
    if q == 0 {
        return false;
    }
    let c = slots::change_at(net, from, end, p);
    c.taken < c.put
}

// Adds transition j, whose slots are those from `from` to before `end`, to the word of each place for which it is listed.
fn list_one(net: &LentNet, from: usize, end: usize, j: usize, words: &mut [u64; 32])
    requires { (j < 64) × (end ≤ 1024) × Engine.Below 32 net.now.place.now × Engine.AtMost 1_000_000 net.now.weight.now × (length words.old ≡ 32) }
    ensures { Slots.Added net.now.capacity.now (Slots.span net.now.kind.now net.now.place.now net.now.weight.now from end) j
        words.old words.new }
{
    for a in from..end {
        let p = net.place[a];
        words[p] = sets::joined(words[p], j, lists(net, from, end, a));
    }
}

// The word of each place: bit j is set exactly where transition j is listed for it. Past the places the words are 0.
pub fn listed_words(net: &LentNet) -> [u64; 32]
    requires { let net = net_of net.now in Engine.Tidy net }
    ensures { let net = net_of net.now in Table.Lists (Record.readable net) result }
{
    let mut words = [0u64; 32];
    for j in 0..net.transitions {
        let from = 16 * j;
        list_one(net, from, from + net.arcs[j], j, &mut words);
    }
    words
}
