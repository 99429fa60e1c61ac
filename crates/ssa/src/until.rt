// Playing a path on over a net whose fields are lent, and a path call that names a number of steps.
ghost use Rattle.std.specs.Prelude.{◌≡◌, true, List, ℕ, ◌+◌, ◌*◌, ◌^◌, ◌<◌, ◌≤◌, Float, length};
ghost use Rattle.std.proofs.Math.Option.{none};
ghost use Rattle.std.proofs.Math.ListN as ListN;
ghost use Rattle.net.specs.Readable as Record;
ghost use Rattle.net.specs.Record.{net_of};
ghost use Rattle.net.specs.declared.Net.{Net as NetRecord};
ghost use Rattle.rng.specs.State as Random;
ghost use Rattle.rules.specs.Carried as Rule;
ghost use Rattle.rules.specs.Gillespie.{Accepted};
ghost use Rattle.rules.specs.Shown as Shown;
ghost use Rattle.rules.specs.Step as Step;
ghost use Rattle.rules.proofs.Play as Play;
ghost use Rattle.engine.specs.Engine as Engine;
ghost use Rattle.timers.specs.Turning as Turning;
ghost use Rattle.ssa.specs.Halted as Spec;
ghost use Rattle.ssa.specs.Told as Told;
ghost use Rattle.playing.specs.Playing as Playing;
ghost use Rattle.playing.specs.Stepping as Stepping;
ghost use Rattle.refusals.specs.Number.{number_of};

use crate::{Halted, Onward, start};
use engine::slots::{self, Slots};
use net::LentNet;
use playing::run::{Standing, Walked};
use playing::{PathEnd, begin, peak, run, tables};
use refusals::Refusal;
use rng::Xoshiro256;
use timers::queue;
use timers::queue::Queue;

// A path of the tidy net whose fields are lent, played on: the tables that a call makes once, and the run.
fn lent_on(
    net: &LentNet,
    counts: &mut [u64; 32],
    ats: &mut [f64; 256],
    owners: &mut [u64; 512],
    instants: &[f64],
    halts: bool,
    steps: u64,
    s: Standing,
    table: &mut [f64],
) -> Walked
    requires { let net = net_of net.now in Engine.Tidy net × Accepted (Record.readable net) × Stepping.Resumes counts.old ats.old owners.old s.timers s.clock
        × (0 < length instants.now) × (s.next ≤ length instants.now) × (length instants.now ≤ 1024) × (net.places * length instants.now ≤ length table.old)
        × (s.tokens ≡ Stepping.tokens_of (Stepping.state_of net counts.old ats.old owners.old s.timers s.clock s.rng.s)) }
    ensures { let net = net_of net.now in Playing.PlayedBy
        (Play.higher s.peak (Play.play_within (Playing.out_of halts) 256 (Record.readable net) (Shown.last_of instants.now) steps
        (ListN.drop s.next instants.now) (Stepping.state_of net counts.old ats.old owners.old s.timers s.clock s.rng.s)))
        net.places instants.now s.next table.old table.new
        (Stepping.state_of net counts.new ats.new owners.new result.timers result.clock result.rng.s) result result.end }
{
    let mut tables = kept::tables::empty();
    tables::fill_tables(net, &mut tables);
    let n = instants.len();
    let ring = s.timers;
    let rng = s.rng;
    let most = peak::first_peak(
        net,
        &tables.limit,
        counts,
        ats,
        owners,
        run::ROOM,
        instants[n - 1],
        steps,
        s,
    );
    let from = Standing {
        clock: s.clock,
        timers: ring,
        next: s.next,
        tokens: s.tokens,
        peak: most,
        rng: rng,
    };
    run::play_on(
        net,
        &tables,
        counts,
        ats,
        owners,
        run::ROOM,
        instants,
        halts,
        steps,
        from,
        table,
    )
}

// A path of the accepted net whose fields are lent, played on. Of these only the slots in use are copied.
pub fn resume(
    net: &LentNet,
    counts: &mut [u64; 32],
    ats: &mut [f64; 256],
    owners: &mut [u64; 512],
    instants: &[f64],
    halts: bool,
    steps: u64,
    s: Standing,
    table: &mut [f64],
) -> Walked
    requires { let net = net_of net.now in (Record.fault net ≡ none) × Stepping.Resumes counts.old ats.old owners.old s.timers s.clock
        × (0 < length instants.now) × (s.next ≤ length instants.now) × (length instants.now ≤ 1024) × (net.places * length instants.now ≤ length table.old)
        × (s.tokens ≡ Stepping.tokens_of (Stepping.state_of net counts.old ats.old owners.old s.timers s.clock s.rng.s)) }
    ensures { let net = net_of net.now in Playing.PlayedBy
        (Play.higher s.peak (Play.play_within (Playing.out_of halts) 256 (Record.readable net) (Shown.last_of instants.now) steps
        (ListN.drop s.next instants.now) (Stepping.state_of net counts.old ats.old owners.old s.timers s.clock s.rng.s)))
        net.places instants.now s.next table.old table.new
        (Stepping.state_of net counts.new ats.new owners.new result.timers result.clock result.rng.s) result result.end }
{
    let mut slots = Slots::blank();
    slots.fill(net);
    // Lent anew, for no longer than the slots.
    let fields = *net;
    lent_on(
        &slots.of(&fields),
        counts,
        ats,
        owners,
        instants,
        halts,
        steps,
        s,
        table,
    )
}

// A path that was left so, after so many steps before, of which so many add a rounded propensity, in the hands of a caller.
pub fn handed<'a>(
    w: Walked,
    counts: &'a [u64; 32],
    ats: &'a [f64; 256],
    owners: &'a [u64; 512],
    steps: u64,
    limit: u64,
    rounded: u64,
    n: usize,
) -> Onward
    requires { (steps + w.steps < 2 ^ 64) × (rounded + w.rounded < 2 ^ 64) }
    ensures { (result.end ≡ w.end) × (result.settled ≡ Told.settled_at w.end w.next n)
        × ((places : ℕ) → Spec.standing_of places result.state ≡ record {
          now = Step.state w.clock (Engine.marking places counts.now) (Turning.timers_of ats.now owners.now w.timers)
              (Random.words w.rng.s);
          steps = steps + w.steps;
          limit = limit;
          peak = w.peak;
          rounded = rounded + w.rounded;
          recorded = w.next;
        }) }
{
    let end = w.end;
    let g = w.rng;
    let state = Halted {
        clock: w.clock,
        counts: *counts,
        generator: g,
        steps: steps + w.steps,
        limit: limit,
        peak: w.peak,
        rounded: rounded + w.rounded,
        recorded: w.next,
        timers: queue::hand_out(ats, owners, w.timers),
    };
    Onward {
        end: end,
        settled: start::settled(end, w.next, n),
        state: state,
    }
}

// A path that has not begun: no count, no timer, no step.
fn unbegun(generator: Xoshiro256) -> Halted
    ensures { (places : ℕ) → Spec.standing_of places result ≡ Spec.unbegun places (Random.words generator.s) }
{
    let none = Queue {
        ats: [0.0; 256],
        whos: [0; 256],
        takens: [0; 256],
        len: 0,
    };
    Halted {
        clock: 0.0,
        counts: [0; 32],
        generator: generator,
        steps: 0,
        limit: 0,
        peak: 0,
        rounded: 0,
        recorded: 0,
        timers: none,
    }
}

// The answer of a call that is refused by c and gives this state back.
pub fn turned_down(c: Refusal, state: Halted) -> Onward
    ensures { (places : ℕ) (table : List Float) → Spec.call_of places result table ≡ Spec.turned_down (number_of c) (Spec.standing_of places state) table }
{
    Onward {
        end: PathEnd::Refused(c),
        settled: 0,
        state: state,
    }
}

// The answer of a naming call that is refused by c.
pub fn refused(c: Refusal, generator: Xoshiro256) -> Onward
    ensures { (places : ℕ) (table : List Float) → Spec.call_of places result table ≡ Spec.turned_down (number_of c) (Spec.unbegun places (Random.words generator.s)) table }
{
    turned_down(c, unbegun(generator))
}

// The path of a naming call that no test turns down.
pub fn accepted_until(
    net: &LentNet,
    generator: Xoshiro256,
    instants: &[f64],
    limit: u64,
    named: u64,
    table: &mut [f64],
) -> Onward
    requires { let net = net_of net.now in (Record.fault net ≡ none) × (Shown.instants_fit instants.now ≡ true) × (Shown.limit_fits limit ≡ true) × (net.places * length instants.now ≤ length table.old) }
    ensures { let net = net_of net.now in Spec.call_of net.places result table.new ≡ Spec.played net.places (length instants.now) 0 (Spec.unbegun net.places (Random.words generator.s))
        table.old (Rule.play_on 256 (Record.readable net) (Rule.begun (Record.readable net) (Random.words generator.s) instants.now limit) named) }
{
    let mut ats = [0.0; 256];
    let mut owners = [0u64; 512];
    let mut counts = slots::first_counts(net.places, net.initial);
    let n = instants.len();
    let s = begin::begin(instants, table, &counts, net.places, generator);
    let w = resume(
        net,
        &mut counts,
        &mut ats,
        &mut owners,
        instants,
        named < limit,
        named.min(limit),
        s,
        table,
    );
    let end = w.end;
    if let PathEnd::Refused(c) = end {
        return refused(c, generator);
    }
    handed(w, &counts, &ats, &owners, 0, limit, 0, n)
}
