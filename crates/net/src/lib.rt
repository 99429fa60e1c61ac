// A stochastic Petri net as data, and its test by the numbers 2 to 7, 17 and 18.
#![tactic(auto)]

mod arcs;
mod bounds;
mod labels;
mod lent;
mod places;
mod takes;
mod transitions;

ghost use Rattle.std.specs.Prelude.{◌≡◌, ◌*◌};
ghost use Rattle.net.specs.Tests as Tests;
ghost use Rattle.net.specs.Readable as Readable;
ghost use Rattle.net.specs.Record.{net_of, blank};
ghost use Rattle.net.specs.Labels as Labels;

use lent::Arcs;
pub use lent::LentNet;
use refusals::Refusal;

// Up to 32 places, 64 transitions and 16 arcs a transition. The label of place p stands in label from byte 16 * p on; lengths[p] says how many
// bytes it has. Arc i of transition j stands in slot 16 * j + i of kind, place and weight; arcs[j] says how many it has. Slots past the counts
// and bytes past the lengths are not looked at. The fields stay arrays side by side, with their counts: C lends them so, and no net takes heap.
#[derive(Clone, Copy)]
pub struct Net {
    pub places: usize,
    pub transitions: usize,
    pub initial: [u64; 32],
    pub capacity: [u64; 32],
    pub label: [u8; 512],
    pub lengths: [usize; 32],
    pub rate: [f64; 64],
    pub delay: [f64; 64],
    pub arcs: [usize; 64],
    pub kind: [u64; 1024],
    pub place: [usize; 1024],
    pub weight: [u64; 1024],
}

// The kinds of arcs. They stay numbers: C lends them as such (cild_path), and a larger one is refused by 4 in its turn, after 2 and 3.
pub const KINETIC_TAKE: u64 = 0;

pub const TAKE: u64 = 1;

pub const PUT: u64 = 2;

pub const READ: u64 = 3;

pub const BLOCK: u64 = 4;

// The first of 2 and 4 that applies to a place with so many places before it. strange: its text holds a value that no place can have.
pub fn place_fault(before: usize, strange: bool, initial: u64, capacity: u64) -> Result<(), Refusal>
    ensures { Readable.meaning result ≡ Tests.first_of (Tests.place_tests before strange (record { initial = initial; capacity = capacity })) }
{
    if bounds::MOST_PLACES <= before {
        return Err(Refusal::BadSize);
    }
    if strange || bounds::MOST_TOKENS < initial || bounds::MOST_TOKENS < capacity {
        return Err(Refusal::OutsideDomain);
    }
    Ok(())
}

// The first of 17 and 18 that applies to the label of place p, behind those of the places before it.
pub fn label_fault<'a>(
    label: &'a [u8; 512],
    lengths: &'a [usize; 32],
    p: usize,
) -> Result<(), Refusal>
    ensures { Readable.meaning result ≡ Labels.label_fault label.now lengths.now p }
{
    if !labels::label_fits(label_of(label, lengths, p)) {
        return Err(Refusal::BadLabel);
    }
    if labels::used_before(label, lengths, p) {
        return Err(Refusal::UsedLabel);
    }
    Ok(())
}

// The label of a place, where the record has one of at most 16 bytes; else no byte.
pub fn label_of<'a>(label: &'a [u8; 512], lengths: &'a [usize; 32], p: usize) -> &'a [u8]
    ensures { result.now ≡ Labels.label_at label.now lengths.now p }
{
    match lengths.get(p) {
        Some(&n) if n <= labels::MOST_BYTES => &label[16 * p..16 * p + n],
        _ => &[],
    }
}

// The first of 2 to 7 that applies to a transition over the net's places, with so many transitions before it. Its arcs stand in `count`
// slots from 16 * before on. strange: its text holds a value that no transition can have.
pub fn transition_fault(
    net: &LentNet,
    before: usize,
    strange: bool,
    rate: f64,
    delay: f64,
    count: usize,
) -> Result<(), Refusal>
    ensures { let net = net_of net.now in Readable.meaning result ≡ Readable.slots_fault net.places before strange rate delay
        (Readable.slots net.kind net.place net.weight (16 * before) count) }
{
    if bounds::too_many(net.places, before, count) {
        return Err(Refusal::BadSize);
    }
    let from = 16 * before;
    let arcs = Arcs {
        net,
        from,
        end: from + count,
    };
    if arcs.no_such_place() {
        return Err(Refusal::NoSuchPlace);
    }
    if arcs.outside(strange, rate, delay) {
        return Err(Refusal::OutsideDomain);
    }
    if arcs.taken_twice() {
        return Err(Refusal::TakenTwice);
    }
    if arcs.delayed_for_nothing(delay) {
        return Err(Refusal::DelayWithoutTake);
    }
    if arcs.kinetic_over() {
        return Err(Refusal::KineticTotal);
    }
    Ok(())
}

// The first of 2 to 7, 17 and 18 that applies to the net whose fields are lent: place by place, then 2 where there is no place, then transition by transition.
pub fn test_net(net: &LentNet) -> Result<(), Refusal>
    ensures { Readable.meaning result ≡ Readable.fault (net_of net.now) }
{
    places::places_fault(net)?;
    if net.places == 0 {
        return Err(Refusal::BadSize);
    }
    transitions::transitions_fault(net)
}

// An empty net: no place, no transition, 0 in every slot.
pub fn empty() -> Net
    ensures { result ≡ blank }
{
    Net {
        places: 0,
        transitions: 0,
        initial: [0; 32],
        capacity: [0; 32],
        label: [0; 512],
        lengths: [0; 32],
        rate: [0.0; 64],
        delay: [0.0; 64],
        arcs: [0; 64],
        kind: [0; 1024],
        place: [0; 1024],
        weight: [0; 1024],
    }
}
