// The event that ends a step: a completion, or the firing of a race.
ghost use Rattle.std.specs.Prelude.{◌≡◌, ◌≤◌, length, IfSome};
ghost use Rattle.std.proofs.Math.ListN as ListN;
ghost use Rattle.net.specs.Readable as Record;
ghost use Rattle.net.specs.Record.{net_of};
ghost use Rattle.net.specs.declared.Net.{Net as NetRecord};
ghost use Rattle.net.specs.Net.{pick};
ghost use Rattle.rng.specs.State as Random;
ghost use Rattle.rng.specs.Xoshiro.{step as drawn};
ghost use Rattle.rules.specs.Step as Rule;
ghost use Rattle.rules.specs.RunningSums as Sums;
ghost use Rattle.timers.specs.Turning as Turning;
ghost use Rattle.engine.specs.Engine as Engine;
ghost use Rattle.engine.specs.Guards as Guards;
ghost use Rattle.playing.specs.Stepping as Stepping;

use engine::marking;
use jump::sums;
use net::LentNet;
use rng::Xoshiro256;
use timers::Ring;

// What an event has changed: the tokens that it leaves, and the transitions that it may have changed, as two words (engine, specs/Guards).
#[derive(Clone, Copy)]
pub struct Change {
    pub tokens: u64,
    pub moved: u64,
    pub crossed: u64,
}

// The timers' ring and the generator after the event, and what it has changed, or None where a count would pass 2^53.
#[derive(Clone, Copy)]
pub struct Ended {
    pub timers: Ring,
    pub rng: Xoshiro256,
    pub change: Option<Change>,
}

// A completion puts the outputs of the first timer's transition and ends the timer: the tokens are those put more, and those that the timer had taken less.
fn complete<'a>(
    net: &LentNet,
    limit: &'a [u64; 1024],
    guards: &'a [u64; 160],
    counts: &mut [u64; 32],
    ats: &'a [f64; 256],
    owners: &'a [u64; 512],
    ring: Ring,
    clock: f64,
    rng: Xoshiro256,
    tokens: u64,
) -> Ended
    requires { let net = net_of net.now in Stepping.Ready net limit.now counts.old ats.now owners.now ring
        × (tokens ≡ Stepping.tokens_of (Stepping.state_of net counts.old ats.now owners.now ring clock rng.s))
        × Guards.Guards net guards.now }
    ensures is { let net = net_of net.now in Stepping.ChangedBy
        (Rule.complete (Record.readable net) (Stepping.state_of net counts.old ats.now owners.now ring clock rng.s))
        (Stepping.state_of net counts.new ats.now owners.now result.timers clock result.rng.s) result.change }
    ensures ready { let net = net_of net.now in Stepping.Ready net limit.now counts.new ats.now owners.now result.timers
        × (Turning.running result.timers ≤ Turning.running ring) }
    ensures quiet { let net = net_of net.now in IfSome result.change (λ x. Guards.Quiet (Record.readable net) (Engine.marking net.places counts.old) (Engine.marking net.places counts.new)
        x.moved x.crossed) }
{
    let x = timers::first(ats, owners, ring);
    let left = timers::remove_first(ring);
    let fewer = tokens - x.taken;
    let j = x.who;
    if j < net.transitions {
        return match marking::put(net, guards, counts, j) {
            Some(p) => Ended {
                timers: left,
                rng,
                change: Some(Change {
                    tokens: fewer + p.more,
                    moved: p.moved,
                    crossed: p.crossed,
                }),
            },
            None => Ended {
                timers: left,
                rng,
                change: None,
            },
        };
    }
    Ended {
        timers: left,
        rng,
        change: Some(Change {
            tokens: fewer,
            moved: 0,
            crossed: 0,
        }),
    }
}

// A race draws, chooses and fires: the tokens are those put more, and those taken less.
fn race<'a>(
    net: &LentNet,
    limit: &'a [u64; 1024],
    guards: &'a [u64; 160],
    counts: &mut [u64; 32],
    ats: &'a [f64; 256],
    owners: &'a [u64; 512],
    props: &'a [f64; 64],
    sums: &'a [f64; 64],
    ring: Ring,
    clock: f64,
    a0: f64,
    rng: Xoshiro256,
    tokens: u64,
) -> Ended
    requires { let net = net_of net.now in Stepping.Ready net limit.now counts.old ats.now owners.now ring × (length props.now ≡ 64) × Sums.SumsKept net.transitions (ListN.take net.transitions props.now) sums.now
        × (tokens ≡ Stepping.tokens_of (Stepping.state_of net counts.old ats.now owners.now ring clock rng.s))
        × Guards.Guards net guards.now }
    ensures is { let net = net_of net.now in Stepping.ChangedBy
        (Rule.raced (Record.readable net) (Stepping.state_of net counts.old ats.now owners.now ring clock rng.s) a0
        (ListN.take net.transitions props.now))
        (Stepping.state_of net counts.new ats.now owners.now result.timers clock result.rng.s) result.change }
    ensures ready { let net = net_of net.now in Stepping.Ready net limit.now counts.new ats.now owners.now result.timers
        × (Turning.running result.timers ≤ Turning.running ring) }
    ensures quiet { let net = net_of net.now in IfSome result.change (λ x. Guards.Quiet (Record.readable net) (Engine.marking net.places counts.old) (Engine.marking net.places counts.new)
        x.moved x.crossed) }
{
    let d = rng.uniform();
    let g = d.rng;
    let chosen = sums::choose_by_sums(net.transitions, d.value * a0, props, sums);
    match chosen {
        None => Ended {
            timers: ring,
            rng: g,
            change: Some(Change {
                tokens,
                moved: 0,
                crossed: 0,
            }),
        },
        Some(j) => {
            if j < net.transitions {
                return match marking::fire(net, guards, counts, j) {
                    Some(f) => Ended {
                        timers: ring,
                        rng: g,
                        change: Some(Change {
                            tokens: tokens + f.more - f.less,
                            moved: f.moved,
                            crossed: f.crossed,
                        }),
                    },
                    None => Ended {
                        timers: ring,
                        rng: g,
                        change: None,
                    },
                };
            }
            Ended {
                timers: ring,
                rng: g,
                change: Some(Change {
                    tokens,
                    moved: 0,
                    crossed: 0,
                }),
            }
        }
    }
}

// The generator that the event leaves, where one is due: a race draws.
pub fn after_event(rng: Xoshiro256, completes: bool) -> Xoshiro256
    ensures { Random.words result.s ≡ pick completes (Random.words rng.s) (drawn (Random.words rng.s)) }
{
    if completes {
        return rng;
    }
    let d = rng.next_u64();
    d.rng
}

// The event: the completion where one is due, else the race.
pub fn happen<'a>(
    net: &LentNet,
    limit: &'a [u64; 1024],
    guards: &'a [u64; 160],
    counts: &mut [u64; 32],
    ats: &'a [f64; 256],
    owners: &'a [u64; 512],
    props: &'a [f64; 64],
    sums: &'a [f64; 64],
    ring: Ring,
    clock: f64,
    a0: f64,
    rng: Xoshiro256,
    tokens: u64,
    completes: bool,
) -> Ended
    requires { let net = net_of net.now in Stepping.Ready net limit.now counts.old ats.now owners.now ring × (length props.now ≡ 64) × Sums.SumsKept net.transitions (ListN.take net.transitions props.now) sums.now
        × (tokens ≡ Stepping.tokens_of (Stepping.state_of net counts.old ats.now owners.now ring clock rng.s))
        × Guards.Guards net guards.now }
    ensures is { let net = net_of net.now in Stepping.ChangedBy
        (Stepping.event_of net (Stepping.state_of net counts.old ats.now owners.now ring clock rng.s) a0
        props.now completes)
        (Stepping.state_of net counts.new ats.now owners.now result.timers clock result.rng.s) result.change }
    ensures ready { let net = net_of net.now in Stepping.Ready net limit.now counts.new ats.now owners.now result.timers
        × (Turning.running result.timers ≤ Turning.running ring) }
    ensures quiet { let net = net_of net.now in IfSome result.change (λ x. Guards.Quiet (Record.readable net) (Engine.marking net.places counts.old) (Engine.marking net.places counts.new)
        x.moved x.crossed) }
{
    if completes {
        return complete(
            net, limit, guards, counts, ats, owners, ring, clock, rng, tokens,
        );
    }
    race(
        net, limit, guards, counts, ats, owners, props, sums, ring, clock, a0, rng, tokens,
    )
}
