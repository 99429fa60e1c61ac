// The tests 3 and 4 of the arcs of a transition.
ghost use Rattle.std.specs.Prelude.{◌≡◌, ◌||◌, leb, ltb};
ghost use Rattle.net.specs.Tests as Tests;
ghost use Rattle.net.specs.Readable as Readable;

use crate::bounds;
use crate::lent::Arcs;

impl Arcs<'_> {
    // 3: a place number not below the place count.
    pub fn no_such_place(&self) -> bool
        ensures { result ≡ Tests.any (λ (l : Readable.Slot). leb self.now.net.now.places l.place) (Readable.lent_slots self.now) }
    {
        for slot in self.from..self.end {
            if self.net.places <= self.net.place[slot] {
                return true;
            }
        }
        false
    }

    // Is there an arc of no known kind, or with too large a weight?
    fn outside_arc(&self) -> bool
        ensures { result ≡ Tests.any (λ (l : Readable.Slot). ltb 4 l.kind || ltb 1_000_000 l.weight) (Readable.lent_slots self.now) }
    {
        for slot in self.from..self.end {
            if crate::BLOCK < self.net.kind[slot] || bounds::MOST_WEIGHT < self.net.weight[slot] {
                return true;
            }
        }
        false
    }

    // 4: a value outside its domain, in the transition or in an arc.
    pub fn outside(&self, strange: bool, rate: f64, delay: f64) -> bool
        ensures { let slots = Readable.lent_slots self.now in result ≡ (strange || Readable.strange slots || Tests.outside (Readable.transition_of rate delay slots)) }
    {
        if strange || !bounds::rate_fits(rate) || !bounds::delay_fits(delay) {
            return true;
        }
        self.outside_arc()
    }
}
