// One step of a run: starts, the clock reading that it sets, and the completion or firing that ends it.
ghost use Rattle.std.specs.Prelude.{◌≡◌, ◌*◌, ◌≤◌, length, MatchResult};
ghost use Rattle.net.specs.Readable as Record;
ghost use Rattle.net.specs.Record.{net_of};
ghost use Rattle.net.specs.declared.Net.{Net as NetRecord};
ghost use Rattle.rng.specs.State as Random;
ghost use Rattle.rules.specs.Step as Rule;
ghost use Rattle.jump.specs.Answers.{unit_wait};
ghost use Rattle.engine.specs.Engine as Engine;
ghost use Rattle.playing.specs.Keeping as Keeps;
ghost use Rattle.playing.specs.Cells as Cells;
ghost use Rattle.playing.specs.Stepping as Stepping;

use crate::{firing, shown, starts};
use jump::Next;
use kept::refresh;
use kept::tables::Tables;
use net::LentNet;
use refusals::Refusal;
use rng::Xoshiro256;
use timers::Ring;

// What is carried from step to step about propensities (kept, specs/Kept): the transitions whose ways may have changed since, those that may have been opened or
// shut, those that are enabled, the rounded ones, and the total.
#[derive(Clone, Copy)]
pub struct Keeping {
    pub moved: u64,
    pub crossed: u64,
    pub able: u64,
    pub marks: u64,
    pub a0: f64,
}

// What a step begins with and leaves, beside the counts and the slots of the timers: the timers' ring, how many instants have been shown, the tokens (all
// place counts plus the weights taken by the running timers), the peak so far, and the waiting time that the generator draws next, at a total of 1.
#[derive(Clone, Copy)]
pub struct Now {
    pub clock: f64,
    pub timers: Ring,
    pub next: usize,
    pub tokens: u64,
    pub peak: u64,
    pub rng: Xoshiro256,
    pub kept: Keeping,
    pub unit: f64,
}

// Whether the run goes on, and how it ends where it does not.
#[derive(Clone, Copy)]
pub enum Ending {
    GoesOn,
    Quiet,
    Reached,
    Refused(Refusal),
}

// What a step leaves, whether its a0 adds a rounded propensity, and whether the run goes on.
#[derive(Clone, Copy)]
pub struct Stepped {
    pub now: Now,
    pub rounded: bool,
    pub ending: Ending,
}

// What follows the starts of a step: nothing, or an event. Whether the event is a completion stands beside it (`completes`), since specs/Stepping, AdvancedBy, takes the
// two apart; one Option<bool> or a jump::Next for both has not been tried.
#[derive(Clone, Copy)]
pub enum Due {
    Nothing,
    Event,
}

// A step up to the clock reading that it sets, whether the event is a completion, and what is kept with whether its total adds a rounded propensity.
#[derive(Clone, Copy)]
pub struct Advanced {
    pub due: Due,
    pub completes: bool,
    pub clock: f64,
    pub timers: Ring,
    pub kept: Keeping,
    pub rounded: bool,
    pub rng: Xoshiro256,
}

// The starts, the propensities, and the new clock reading. Where a timer could not start, the ring is all that is answered.
fn advance(
    net: &LentNet,
    tables: &Tables,
    counts: &mut [u64; 32],
    ats: &mut [f64; 256],
    owners: &mut [u64; 512],
    props: &mut [f64; 64],
    sums: &mut [f64; 64],
    room: usize,
    ring: Ring,
    t: f64,
    rng: Xoshiro256,
    kept: Keeping,
    unit: f64,
) -> Result<Advanced, Ring>
    requires { let net = net_of net.now in Stepping.Ready net tables.now.limit counts.old ats.old owners.old ring × Stepping.Roomy room ring × Keeps.Tables net tables.now.rates tables.now.ends tables.now.guards tables.now.timed tables.now.heavy
        × Keeps.Carried net (Engine.marking net.places counts.old) kept props.old sums.old × (unit ≡ unit_wait (Random.words rng.s)) }
    ensures is { let net = net_of net.now in let before = Stepping.state_of net counts.old ats.old owners.old ring t rng.s in
        MatchResult result
        (λ d. Stepping.AdvancedBy net (Rule.step room (Record.readable net) before) before
        (Stepping.state_of net counts.new ats.new owners.new d.timers d.clock d.rng.s)
        props.new d.kept.a0 d.rounded d.completes d.due)
        (λ k. Stepping.Unstarted (Rule.step room (Record.readable net) before)) }
    ensures ready { let net = net_of net.now in MatchResult result
        (λ d. Stepping.Ready net tables.now.limit counts.new ats.new owners.new d.timers × Stepping.Roomy room d.timers
        × (d.due ≡ Due.Event → Keeps.Carried net (Engine.marking net.places counts.new) d.kept props.new sums.new
        × (d.kept.moved ≡ 0) × (d.kept.crossed ≡ 0)))
        (λ k. Stepping.Ready net tables.now.limit counts.new ats.new owners.new k × Stepping.Roomy room k) }
{
    let before = kept.crossed;
    let s = starts::start_all(net, tables, counts, ats, owners, room, ring, t, before)?;
    let left = s.timers;
    let moved = kept.moved | s.moved;
    let crossed = before | s.crossed;
    let fresh = refresh::refresh(
        net, tables, counts, moved, crossed, kept.able, kept.marks, kept.a0, props, sums,
    );
    let a0 = fresh.a0;
    let rounded = fresh.marks != 0;
    let now = Keeping {
        moved: 0,
        crossed: 0,
        able: fresh.able,
        marks: fresh.marks,
        a0,
    };
    let w = jump::waiting(a0, unit, rng);
    let dt = w.dt;
    let g = w.rng;
    let x = timers::first(ats, owners, left);
    let what = jump::next_event(a0, t, dt, timers::count(left), x.at);
    Ok(match what {
        Next::Nothing => Advanced {
            due: Due::Nothing,
            completes: false,
            clock: t,
            timers: left,
            kept: now,
            rounded,
            rng: g,
        },
        Next::Race(wait) => Advanced {
            due: Due::Event,
            completes: false,
            clock: t + wait,
            timers: left,
            kept: now,
            rounded,
            rng: g,
        },
        Next::Completion(at) => Advanced {
            due: Due::Event,
            completes: true,
            clock: at,
            timers: left,
            kept: now,
            rounded,
            rng: g,
        },
    })
}

// One step.
pub fn one_step(
    net: &LentNet,
    tables: &Tables,
    counts: &mut [u64; 32],
    ats: &mut [f64; 256],
    owners: &mut [u64; 512],
    props: &mut [f64; 64],
    sums: &mut [f64; 64],
    room: usize,
    instants: &[f64],
    last: f64,
    table: &mut [f64],
    s: Now,
) -> Stepped
    requires { let net = net_of net.now in Stepping.Ready net tables.now.limit counts.old ats.old owners.old s.timers × Stepping.Roomy room s.timers
        × Keeps.Tables net tables.now.rates tables.now.ends tables.now.guards tables.now.timed tables.now.heavy × Keeps.Carried net (Engine.marking net.places counts.old) s.kept props.old sums.old
        × (s.next ≤ length instants.now) × (length instants.now ≤ 1024)
        × (net.places * length instants.now ≤ length table.old)
        × (s.tokens ≡ Stepping.tokens_of (Stepping.state_of net counts.old ats.old owners.old s.timers s.clock s.rng.s))
        × (s.unit ≡ unit_wait (Random.words s.rng.s)) }
    ensures is { let net = net_of net.now in let before = Stepping.state_of net counts.old ats.old owners.old s.timers s.clock s.rng.s in
        Stepping.StepBy (Rule.step room (Record.readable net) before) before last
        (λ u. Cells.ShownBy net.places instants.now u.clock u.counts s.next result.now.next table.old table.new)
        (Cells.NotShown s.next result.now.next table.old table.new)
        s.peak result.now.peak result.now.tokens
        (Stepping.state_of net counts.new ats.new owners.new result.now.timers result.now.clock result.now.rng.s)
        result.rounded result.ending }
    ensures ready { let net = net_of net.now in Stepping.Ready net tables.now.limit counts.new ats.new owners.new result.now.timers
        × Stepping.Roomy room result.now.timers
        × (result.ending ≡ Ending.GoesOn → Keeps.Carried net (Engine.marking net.places counts.new) result.now.kept props.new sums.new
        × (result.now.unit ≡ unit_wait (Random.words result.now.rng.s)))
        × (length table.new ≡ length table.old)
        × Cells.Stay net.places (length instants.now) table.old table.new }
{
    let d = match advance(
        net, tables, counts, ats, owners, props, sums, room, s.timers, s.clock, s.rng, s.kept,
        s.unit,
    ) {
        Ok(d) => d,
        Err(timers) => {
            return Stepped {
                now: Now { timers, ..s },
                rounded: false,
                ending: Ending::Refused(Refusal::TooManyTimers),
            };
        }
    };
    let rounded = d.rounded;
    let clock = d.clock;
    let fresh = d.kept;
    match d.due {
        Due::Nothing => Stepped {
            now: Now {
                clock,
                timers: d.timers,
                rng: d.rng,
                kept: fresh,
                ..s
            },
            rounded,
            ending: Ending::Quiet,
        },
        Due::Event => {
            let next = shown::show(instants, table, counts, net.places, clock, s.next);
            if last < clock {
                return Stepped {
                    now: Now {
                        clock,
                        timers: d.timers,
                        next,
                        rng: d.rng,
                        kept: fresh,
                        ..s
                    },
                    rounded,
                    ending: Ending::Reached,
                };
            }
            let unit = jump::unit_wait(firing::after_event(d.rng, d.completes));
            let e = firing::happen(
                net,
                &tables.limit,
                &tables.guards,
                counts,
                ats,
                owners,
                props,
                sums,
                d.timers,
                clock,
                fresh.a0,
                d.rng,
                s.tokens,
                d.completes,
            );
            match e.change {
                Some(x) => Stepped {
                    now: Now {
                        clock,
                        timers: e.timers,
                        next,
                        tokens: x.tokens,
                        peak: s.peak.max(x.tokens),
                        rng: e.rng,
                        kept: Keeping {
                            moved: x.moved,
                            crossed: x.crossed,
                            ..fresh
                        },
                        unit,
                    },
                    rounded,
                    ending: Ending::GoesOn,
                },
                None => Stepped {
                    now: Now {
                        clock,
                        timers: e.timers,
                        next,
                        rng: e.rng,
                        kept: fresh,
                        ..s
                    },
                    rounded,
                    ending: Ending::Refused(Refusal::CountTooLarge),
                },
            }
        }
    }
}
