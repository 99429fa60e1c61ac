// The tests 5, 6 and 7 of the takes of a transition.
ghost use Rattle.std.specs.Prelude.{◌≡◌, ◌&&◌, ◌||◌, not, ℕ, map, eqb, leb, ltb};
ghost use Rattle.std.specs.Float.Ieee as Ieee;
ghost use Rattle.words.specs.Bits.{bit};
ghost use Rattle.net.specs.Net as NetSpec;
ghost use Rattle.net.specs.Tests as Tests;
ghost use Rattle.net.specs.Readable as Readable;

use crate::bounds;
use crate::lent::Arcs;

// Does an arc of this kind and place take from place p?
fn takes_from(kind: u64, place: usize, p: usize) -> bool
    ensures { result ≡ (leb kind 1 && eqb p place) }
{
    kind <= crate::TAKE && p == place
}

// The word with place p in it, where it has a bit for p.
fn joined(seen: u64, p: usize) -> u64
    ensures { (q : ℕ) → bit result q ≡ (bit seen q || (ltb p 64 && eqb p q)) }
{
    if p < 64 {
        return seen | (1u64 << p);
    }
    seen
}

// What an arc adds to the kinetic total: its weight, 1 for 0, if it is a kinetic take.
fn kinetic_weight(kind: u64, weight: u64) -> u64
    ensures { result ≡ NetSpec.pick (eqb kind 0) (NetSpec.amount weight) 0 }
{
    if kind == crate::KINETIC_TAKE {
        return weight.max(1);
    }
    0
}

impl Arcs<'_> {
    // Does an arc from slot `from` on take from place p?
    fn taken_in(&self, p: usize, from: usize) -> bool
        ensures { result ≡ Tests.any (λ (l : Readable.Slot). leb l.kind 1 && eqb p l.place) (Readable.lent_from self.now from) }
    {
        for slot in from..self.end {
            if takes_from(self.net.kind[slot], self.net.place[slot], p) {
                return true;
            }
        }
        false
    }

    // Is place p, of a take, taken twice? The word holds the places of the takes before it. It has no bit for a place from 64 on, which a caller
    // may name: such a one is looked for in the slots from `from` on, those after it.
    fn taken_again(&self, seen: u64, p: usize, from: usize) -> bool
        ensures { result ≡ (bit seen p || (not (ltb p 64) && Tests.any (λ (l : Readable.Slot). leb l.kind 1 && eqb p l.place) (Readable.lent_from self.now from))) }
    {
        if p < 64 {
            return (seen >> p) & 1 == 1;
        }
        self.taken_in(p, from)
    }

    // 5: one place twice among the takes. With at most 64 places each slot is looked at once.
    pub fn taken_twice(&self) -> bool
        ensures { result ≡ Tests.twice (map (λ (k : NetSpec.Take). k.place) (Readable.takes_of (Readable.lent_slots self.now))) }
    {
        let mut seen: u64 = 0;
        for slot in self.from..self.end {
            if self.net.kind[slot] <= crate::TAKE {
                let p = self.net.place[slot];
                if self.taken_again(seen, p, slot + 1) {
                    return true;
                }
                seen = joined(seen, p);
            }
        }
        false
    }

    // Is there a take?
    fn any_take(&self) -> bool
        ensures { result ≡ Tests.any (λ (l : Readable.Slot). leb l.kind 1) (Readable.lent_slots self.now) }
    {
        for slot in self.from..self.end {
            if self.net.kind[slot] <= crate::TAKE {
                return true;
            }
        }
        false
    }

    // 6: a delay above 0 without a take.
    pub fn delayed_for_nothing(&self, delay: f64) -> bool
        ensures { result ≡ (Ieee.lt NetSpec.zero64 delay && Tests.empty (Readable.takes_of (Readable.lent_slots self.now))) }
    {
        0.0 < delay && !self.any_take()
    }

    // 7: kinetic weights that total more than 16. It stops where they do, so no sum is large.
    pub fn kinetic_over(&self) -> bool
        ensures { result ≡ ltb 16 (Tests.kinetic_total (Readable.takes_of (Readable.lent_slots self.now))) }
    {
        let mut total: u64 = 0;
        for slot in self.from..self.end {
            let more = kinetic_weight(self.net.kind[slot], self.net.weight[slot]);
            if bounds::MOST_KINETIC - total < more {
                return true;
            }
            total += more;
        }
        false
    }
}
