// The slots of a net's arcs: cleared where they are not used, and the limit of each, both once a call.
ghost use Rattle.std.specs.Prelude.{◌≡◌, ℕ, ◌+◌, ◌-◌, ◌*◌, ◌^◌, ◌<◌, ◌≤◌, length, get_or, set, replicate, eqb, true};
ghost use Rattle.std.proofs.Math.Option.{none};
ghost use Rattle.net.specs.Net as Reader;
ghost use Rattle.net.specs.Readable as Record;
ghost use Rattle.net.specs.Record.{net_of};
ghost use Rattle.net.specs.declared.Net.{Net as NetRecord};
ghost use Rattle.engine.specs.Engine as Engine;
ghost use Rattle.engine.specs.Limits as Limits;
ghost use Rattle.engine.specs.Arcs as Arcs;

use net::LentNet;

// The group of a slot, by its kind: puts are behind. A number, as in `Arcs.group` and `Arcs.of_group`, which the contracts here name.
fn group(kind: u64) -> u64
    ensures { result ≡ Arcs.group kind }
{
    if kind == net::PUT {
        return 1;
    }
    0
}

// A net's slots in order: the puts of a transition stand behind its other arcs, so that a test may end before them, and every slot that is not used is 0, so
// that the bounds of an accepted net hold in all slots.
#[derive(Drop)]
pub struct Slots {
    pub arcs: [usize; 64],
    pub kind: [u64; 1024],
    pub place: [usize; 1024],
    pub weight: [u64; 1024],
}

impl Slots {
    // No slot is used.
    pub fn blank() -> Slots
        ensures { result ≡ Arcs.blank }
    {
        Slots {
            arcs: [0; 64],
            kind: [0; 1024],
            place: [0; 1024],
            weight: [0; 1024],
        }
    }

    // Copies slot a of the net to slot b, if it is of group g, and answers with the next slot to fill.
    fn copy_slot(&mut self, net: &LentNet, a: usize, g: u64, b: usize) -> usize
        requires { let kind = get_or net.now.kind.now a 0 in (a < 1024) × (eqb (Arcs.group kind) g ≡ true → b < 1024)
            × (length self.old.kind ≡ 1024) × (length self.old.place ≡ 1024) × (length self.old.weight ≡ 1024) }
        ensures { let mine = eqb (Arcs.group (get_or net.now.kind.now a 0)) g in (result ≡ Reader.pick mine (b + 1) b) × (self.new.arcs ≡ self.old.arcs)
            × (self.new.kind ≡ Reader.pick mine (set self.old.kind b (get_or net.now.kind.now a 0)) self.old.kind)
            × (self.new.place ≡ Reader.pick mine (set self.old.place b (get_or net.now.place.now a 0)) self.old.place)
            × (self.new.weight ≡ Reader.pick mine (set self.old.weight b (get_or net.now.weight.now a 0)) self.old.weight) }
    {
        if group(net.kind[a]) == g {
            self.kind[b] = net.kind[a];
            self.place[b] = net.place[a];
            self.weight[b] = net.weight[a];
            return b + 1;
        }
        b
    }

    // Copies those of n slots of the net from slot `from` on that are of group g to the slots from `to` on, and answers with the slot behind them.
    fn copy_slots(&mut self, net: &LentNet, from: usize, n: usize, g: u64, to: usize) -> usize
        requires { (from + n ≤ 1024) × (to + length (Arcs.of_group g (Record.slots net.now.kind.now net.now.place.now net.now.weight.now from n)) ≤ 1024)
            × (length self.old.kind ≡ 1024) × (length self.old.place ≡ 1024) × (length self.old.weight ≡ 1024) }
        ensures { Arcs.Copied to result (Arcs.of_group g (Record.slots net.now.kind.now net.now.place.now net.now.weight.now from n))
            self.old.kind self.old.place self.old.weight self.new.kind self.new.place self.new.weight × (self.new.arcs ≡ self.old.arcs) }
    {
        let mut b = to;
        for a in from..from + n {
            b = self.copy_slot(net, a, g, b);
        }
        b
    }

    // Fills blank slots with those of the net. With them it reads as the same net: the order among takes, reads, blocks and puts stays.
    pub fn fill(&mut self, net: &LentNet)
        requires { (Record.fault (net_of net.now) ≡ none) × (self.old ≡ Arcs.blank) }
        ensures { let net = net_of net.now in Engine.Tidied net (Arcs.with_slots net self.new) }
    {
        for j in 0..net.transitions {
            let n = net.arcs[j];
            self.arcs[j] = n;
            let from = 16 * j;
            let to = self.copy_slots(net, from, n, 0, from);
            self.copy_slots(net, from, n, 1, to);
        }
    }

    // The net with these slots for its own. Of a net whose fields are lent only the slots in use are copied.
    pub fn of<'a>(&'a self, net: &LentNet<'a>) -> LentNet<'a>
        ensures { net_of result ≡ Arcs.with_slots (net_of net.now) self.now }
    {
        LentNet {
            arcs: &self.arcs,
            kind: &self.kind,
            place: &self.place,
            weight: &self.weight,
            ..*net
        }
    }
}

// "Weight 0 means 1."
pub fn amount(w: u64) -> u64
    ensures { result ≡ Reader.amount w }
{
    w.max(1)
}

// No count reaches it.
const NO_LIMIT: u64 = 0x7FFF_FFFF_FFFF_FFFF;

// In the table of limits: this slot and all behind it of its transition have no limit. It is open at no count.
pub const STOP: u64 = 0x8000_0000_0000_0000;

// What a transition puts into a place, and takes from it.
#[derive(Clone, Copy)]
pub struct Change {
    pub put: u64,
    pub taken: u64,
}

// What one slot puts into place p.
fn put_slot(kind: u64, place: usize, weight: u64, p: usize) -> u64
    ensures { result ≡ Arcs.put_slot kind place weight p }
{
    if kind == net::PUT {
        if place == p {
            return amount(weight);
        }
    }
    0
}

// What one slot takes from place p.
fn taken_slot(kind: u64, place: usize, weight: u64, p: usize) -> u64
    ensures { result ≡ Arcs.taken_slot kind place weight p }
{
    if kind <= net::TAKE {
        if place == p {
            return amount(weight);
        }
    }
    0
}

// What the slots from `from` to before `end` put into place p and take from it.
pub fn change_at(net: &LentNet, from: usize, end: usize, p: usize) -> Change
    requires { (end ≤ 1024) × Arcs.Light from end net.now.weight.now }
    ensures { (result.put ≡ Reader.moved (Record.arcs_of Record.is_put (Record.slots net.now.kind.now net.now.place.now net.now.weight.now from (end - from))) p)
        × (result.taken ≡ Reader.taken_by (Record.takes_of (Record.slots net.now.kind.now net.now.place.now net.now.weight.now from (end - from))) p) }
{
    let mut put = 0;
    let mut taken = 0;
    for a in from..end {
        let k = net.kind[a];
        let q = net.place[a];
        let w = net.weight[a];
        put += put_slot(k, q, w, p);
        taken += taken_slot(k, q, w, p);
    }
    Change { put, taken }
}

// The counts with room, at a place of capacity q, are those below this.
fn room_limit(q: u64, c: Change) -> u64
    ensures { result ≡ Limits.room_limit q c.put c.taken }
{
    let put = c.put;
    let taken = c.taken;
    if q == 0 {
        return NO_LIMIT;
    }
    if put <= taken {
        return NO_LIMIT;
    }
    let more = put - taken;
    if q < more {
        return 0;
    }
    q - more + 1
}

// The limit of a slot that is no put: from above for a block, else from below.
fn arc_limit(kind: u64, weight: u64) -> u64
    requires { weight ≤ 1_000_000 }
    ensures { result ≡ Limits.arc_limit kind weight }
{
    let w = amount(weight);
    if net::BLOCK <= kind {
        return w;
    }
    0xFFFF_FFFF_FFFF_FFFF - w + 1
}

// The limit of slot a. A place without a capacity has room at every count.
fn slot_limit(net: &LentNet, a: usize) -> u64
    requires { let net = net_of net.now in (a < 1024) × Engine.Tidy net }
    ensures { let net = net_of net.now in result ≡ Limits.limit_at net a }
{
    let k = net.kind[a];
    if k != net::PUT {
        return arc_limit(k, net.weight[a]);
    }
    let p = net.place[a];
    let q = net.capacity[p];
    if q == 0 {
        return NO_LIMIT;
    }
    let j = a / 16;
    let from = 16 * j;
    let end = from + net.arcs[j];
    room_limit(q, change_at(net, from, end, p))
}

// Fills the table with the limit of every slot.
fn fill_slots(net: &LentNet, limit: &mut [u64; 1024])
    requires { let net = net_of net.now in Engine.Tidy net × (length limit.old ≡ 1024) }
    ensures { let net = net_of net.now in (length limit.new ≡ 1024) × ((a : ℕ) → a < 16 * net.transitions → get_or limit.new a 0 ≡ Limits.limit_at net a) }
{
    for a in 0..16 * net.transitions {
        limit[a] = slot_limit(net, a);
    }
}

// Marks the slots without a limit at the end of those from `from` to before `end`, and answers with the first of them.
fn mark_rest(limit: &mut [u64; 1024], from: usize, end: usize) -> usize
    requires { (from ≤ end) × (end ≤ 1024) × (length limit.old ≡ 1024) }
    ensures { (from ≤ result) × (result ≤ end) × Limits.Rest result end limit.old limit.new }
{
    for a in (from..end).rev() {
        if limit[a] != NO_LIMIT {
            return a + 1;
        }
        limit[a] = STOP;
    }
    from
}

// Marks them in every transition.
fn mark_rests(transitions: usize, arcs: &[usize; 64], limit: &mut [u64; 1024])
    requires { (transitions ≤ 64) × Engine.AtMost 16 arcs.now × (length limit.old ≡ 1024) }
    ensures { (a : ℕ) → Limits.Says arcs.now (λ (b : ℕ). get_or limit.old b 0) a (get_or limit.new a 0) }
{
    for j in 0..transitions {
        let from = 16 * j;
        mark_rest(limit, from, from + arcs[j]);
    }
}

// Fills the table of limits.
pub fn fill_limits(net: &LentNet, limit: &mut [u64; 1024])
    requires { let net = net_of net.now in Engine.Tidy net × (length limit.old ≡ 1024) }
    ensures { let net = net_of net.now in Limits.Limits net limit.new }
{
    fill_slots(net, limit);
    mark_rests(net.transitions, net.arcs, limit);
}

// The initial counts of the first `places` places, and 0 beyond.
pub fn first_counts(places: usize, initial: &[u64; 32]) -> [u64; 32]
    requires { (places ≤ 32) × ((p : ℕ) → p < places → get_or initial.now p 0 ≤ 2 ^ 53) }
    ensures { (Engine.marking places result ≡ Engine.counts_from initial.now 0 places) × Engine.Counts result }
{
    let mut counts = [0u64; 32];
    counts[..places].copy_from_slice(&initial[..places]);
    counts
}

// Does one of the first `transitions` transitions run by a timer?
pub fn any_timed(transitions: usize, delay: &[f64; 64]) -> bool
    requires { transitions ≤ 64 }
    ensures { result ≡ Engine.any_timed transitions delay.now }
{
    delay[..transitions].iter().any(|d| 0.0 < *d)
}
