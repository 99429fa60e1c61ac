// The starts of delayed transitions, in passes.
ghost use Rattle.std.specs.Prelude.{◌≡◌, true, [], ◌∷◌, ℕ, suc, ◌+◌, ◌^◌, ◌<◌, ◌≤◌, leb, ◌&&◌, IfOk};
ghost use Rattle.net.specs.Net.{timed as delayed};
ghost use Rattle.net.specs.Readable as Record;
ghost use Rattle.net.specs.Record.{net_of};
ghost use Rattle.net.specs.declared.Net.{Net as NetRecord};
ghost use Rattle.rules.specs.Step as Rule;
ghost use Rattle.words.specs.Bits.{bit};
ghost use Rattle.engine.specs.Engine as Engine;
ghost use Rattle.engine.specs.Guards as Guards;
ghost use Rattle.engine.specs.Traits as Traits;
ghost use Rattle.playing.specs.Keeping as Keeping;
ghost use Rattle.playing.specs.Starts as Starts;
ghost use Rattle.timers.specs.Turning as Turning;
ghost use Rattle.playing.specs.Stepping as Stepping;

use engine::marking;
use kept::tables::Tables;
use net::LentNet;
use timers::{Ring, Timer};

// What starts leave: the timers' ring, whether a timer has started, and what the starts have changed, as two words of transitions (engine, specs/Guards). Where a
// timer could not start, since there was no room for it, the ring is all that is answered, as an Err.
#[derive(Clone, Copy)]
pub struct Started {
    pub timers: Ring,
    pub any: bool,
    pub moved: u64,
    pub crossed: u64,
}

// Starts transition j if it is delayed and enabled. Its tokens are taken first, since its timer holds how many they were; where there is no room for the
// timer the run is refused, and its counts matter no more.
fn try_start<'a>(
    net: &LentNet,
    limit: &'a [u64; 1024],
    guards: &'a [u64; 160],
    counts: &mut [u64; 32],
    ats: &mut [f64; 256],
    owners: &mut [u64; 512],
    room: usize,
    ring: Ring,
    t: f64,
    j: usize,
) -> Result<Started, Ring>
    requires { let net = net_of net.now in (j < net.transitions) × Stepping.Ready net limit.now counts.old ats.old owners.old ring × Stepping.Roomy room ring
        × Guards.Guards net guards.now }
    ensures is { let net = net_of net.now in Starts.StartsAre
        (Rule.pass room (Record.readable net) t j (Record.transition net j ∷ [])
        (Engine.marking net.places counts.old) (Turning.timers_of ats.old owners.old ring))
        (Engine.marking net.places counts.new) (Turning.timers_of ats.new owners.new) result }
    ensures ready { let net = net_of net.now in Stepping.Ready net limit.now counts.new ats.new owners.new (Starts.ring_of result) × Stepping.Roomy room (Starts.ring_of result) }
    ensures quiet { let net = net_of net.now in IfOk result (λ s. Guards.Quiet (Record.readable net) (Engine.marking net.places counts.old) (Engine.marking net.places counts.new)
        s.moved s.crossed) }
{
    let d = net.delay[j];
    if 0.0 < d {
        if marking::enabled(net, limit, counts, j) {
            let took = marking::take(net, guards, counts, j);
            let x = Timer {
                at: t + d,
                who: j,
                taken: took.less,
            };
            let put = timers::insert(ats, owners, ring, room, x);
            let Some(after) = put else {
                return Err(ring);
            };
            return Ok(Started {
                timers: after,
                any: true,
                moved: took.moved,
                crossed: took.crossed,
            });
        }
    }
    Ok(Started {
        timers: ring,
        any: false,
        moved: 0,
        crossed: 0,
    })
}

// The part of a word from bit k on.
fn from_bit(word: u64, k: usize) -> u64
    requires { k ≤ 64 }
    ensures { ((j : ℕ) → bit result j ≡ (leb k j && bit word j)) × (result < 2 ^ 64) }
{
    if k == 64 {
        return 0;
    }
    (word >> k) << k
}

// One pass through the transitions. Only those in the word `asked` are looked at, and those that a start of this pass may have opened: every other delayed one is
// not enabled.
fn pass(
    net: &LentNet,
    tables: &Tables,
    counts: &mut [u64; 32],
    ats: &mut [f64; 256],
    owners: &mut [u64; 512],
    room: usize,
    ring: Ring,
    t: f64,
    asked: u64,
) -> Result<Started, Ring>
    requires { let net = net_of net.now in Stepping.Ready net tables.now.limit counts.old ats.old owners.old ring × Stepping.Roomy room ring × Guards.Guards net tables.now.guards
        × Traits.Marks net delayed tables.now.timed × ((j : ℕ) → bit asked j ≡ true → bit tables.now.timed j ≡ true) × Keeping.ShutBut asked (Record.readable net) (Engine.marking net.places counts.old) }
    ensures is { let net = net_of net.now in Starts.StartsAre
        (Rule.pass room (Record.readable net) t 0 (Record.readable net).transitions
        (Engine.marking net.places counts.old) (Turning.timers_of ats.old owners.old ring))
        (Engine.marking net.places counts.new) (Turning.timers_of ats.new owners.new) result }
    ensures ready { let net = net_of net.now in Stepping.Ready net tables.now.limit counts.new ats.new owners.new (Starts.ring_of result) × Stepping.Roomy room (Starts.ring_of result) }
    ensures quiet { let net = net_of net.now in IfOk result (λ s. Guards.Quiet (Record.readable net) (Engine.marking net.places counts.old) (Engine.marking net.places counts.new)
        s.moved s.crossed) }
{
    let mut k = ring;
    let mut any = false;
    let mut moved: u64 = 0;
    let mut crossed: u64 = 0;
    let mut tried = asked;
    let mut from: usize = 0;
    let mut ahead = asked;
    while ahead != 0 {
        let j = u64::trailing_zeros(ahead) as usize;
        let s = try_start(
            net,
            &tables.limit,
            &tables.guards,
            counts,
            ats,
            owners,
            room,
            k,
            t,
            j,
        )?;
        k = s.timers;
        any |= s.any;
        moved |= s.moved;
        crossed |= s.crossed;
        tried |= s.crossed & tables.timed;
        from = j + 1;
        ahead = from_bit(tried, from);
    }
    Ok(Started {
        timers: k,
        any,
        moved,
        crossed,
    })
}

// Passes until none starts. A delayed transition outside the word `before` is not enabled.
pub fn start_all(
    net: &LentNet,
    tables: &Tables,
    counts: &mut [u64; 32],
    ats: &mut [f64; 256],
    owners: &mut [u64; 512],
    room: usize,
    ring: Ring,
    t: f64,
    before: u64,
) -> Result<Started, Ring>
    requires { let net = net_of net.now in Stepping.Ready net tables.now.limit counts.old ats.old owners.old ring × Stepping.Roomy room ring × Guards.Guards net tables.now.guards
        × Traits.Marks net delayed tables.now.timed × Keeping.ShutBut before (Record.readable net) (Engine.marking net.places counts.old) }
    ensures is { let net = net_of net.now in Starts.StartsAre
        (Rule.passes (suc room) room (Record.readable net) t (Engine.marking net.places counts.old) (Turning.timers_of ats.old owners.old ring))
        (Engine.marking net.places counts.new) (Turning.timers_of ats.new owners.new) result }
    ensures ready { let net = net_of net.now in Stepping.Ready net tables.now.limit counts.new ats.new owners.new (Starts.ring_of result) × Stepping.Roomy room (Starts.ring_of result) }
    ensures quiet { let net = net_of net.now in IfOk result (λ s. Guards.Quiet (Record.readable net) (Engine.marking net.places counts.old) (Engine.marking net.places counts.new)
        s.moved s.crossed) }
{
    let mut asked = before & tables.timed;
    if asked == 0 {
        return Ok(Started {
            timers: ring,
            any: false,
            moved: 0,
            crossed: 0,
        });
    }
    let mut k = ring;
    let mut any = false;
    let mut moved: u64 = 0;
    let mut crossed: u64 = 0;
    for _i in 0..room + 1 {
        let s = pass(net, tables, counts, ats, owners, room, k, t, asked)?;
        k = s.timers;
        moved |= s.moved;
        crossed |= s.crossed;
        if !s.any {
            return Ok(Started {
                timers: k,
                any,
                moved,
                crossed,
            });
        }
        asked |= s.crossed & tables.timed;
        any = true;
    }
    Ok(Started {
        timers: k,
        any,
        moved,
        crossed,
    })
}
