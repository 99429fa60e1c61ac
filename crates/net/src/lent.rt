// A net whose fields are lent, each where it lies: who holds them apart, as C does, is spared a copy of the slots.
ghost use Rattle.std.specs.Prelude.{◌≡◌, ◌≤◌};
ghost use Rattle.net.specs.Record.{net_of};

use crate::Net;

#[derive(Clone, Copy)]
pub struct LentNet<'a> {
    pub places: usize,
    pub transitions: usize,
    pub initial: &'a [u64; 32],
    pub capacity: &'a [u64; 32],
    pub label: &'a [u8; 512],
    pub lengths: &'a [usize; 32],
    pub rate: &'a [f64; 64],
    pub delay: &'a [f64; 64],
    pub arcs: &'a [usize; 64],
    pub kind: &'a [u64; 1024],
    pub place: &'a [usize; 1024],
    pub weight: &'a [u64; 1024],
}

// The arcs of one transition: those in the net's slots from `from` to before `end`.
#[derive(Clone, Copy)]
pub struct Arcs<'a> {
    pub net: &'a LentNet<'a>,
    pub from: usize,
    pub end: usize,
    ghost within: { end ≤ 1024 },
}

impl Net {
    // The net, its fields lent.
    pub fn lent(&self) -> LentNet<'_>
        ensures { net_of result ≡ self.now }
    {
        LentNet {
            places: self.places,
            transitions: self.transitions,
            initial: &self.initial,
            capacity: &self.capacity,
            label: &self.label,
            lengths: &self.lengths,
            rate: &self.rate,
            delay: &self.delay,
            arcs: &self.arcs,
            kind: &self.kind,
            place: &self.place,
            weight: &self.weight,
        }
    }
}
