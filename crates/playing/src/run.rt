// The loop of a path: steps while the clock is below the last instant and the limit allows; then the instants that are left are shown.
ghost use Rattle.std.specs.Prelude.{◌≡◌, ℕ, ◌+◌, ◌*◌, ◌<◌, ◌≤◌, ltb, length};
ghost use Rattle.std.proofs.Math.ListN as ListN;
ghost use Rattle.words.specs.Bits.{bit};
ghost use Rattle.net.specs.Net as Net;
ghost use Rattle.net.specs.Readable as Record;
ghost use Rattle.net.specs.Record.{net_of};
ghost use Rattle.net.specs.declared.Net.{Net as NetRecord};
ghost use Rattle.rng.specs.State as Random;
ghost use Rattle.rules.specs.Shown as Shown;
ghost use Rattle.rules.specs.Step.{given};
ghost use Rattle.rules.proofs.Play as Play;
ghost use Rattle.jump.specs.Answers.{unit_wait};
ghost use Rattle.engine.specs.Engine as Engine;
ghost use Rattle.playing.specs.Keeping as Keeps;
ghost use Rattle.playing.specs.Cells as Cells;
ghost use Rattle.playing.specs.Stepping as Stepping;
ghost use Rattle.playing.specs.Playing as Playing;
ghost use Rattle.playing.specs.Ends as Ends;

use crate::step::{Ending, Keeping, Now};
use crate::{PathEnd, shown, step};
use kept::tables::Tables;
use net::LentNet;
use rng::Xoshiro256;
use timers::Ring;

// How many timers may run in a path.
pub const ROOM: usize = 256;

// Where a path stands between two steps, beside its counts and the slots of its timers: the clock, the timers' ring, how many instants have been shown, the
// tokens (all place counts plus the weights taken by the running timers), the peak so far and the generator.
#[derive(Clone, Copy)]
pub struct Standing {
    pub clock: f64,
    pub timers: Ring,
    pub next: usize,
    pub tokens: u64,
    pub peak: u64,
    pub rng: Xoshiro256,
}

// How the steps ended: after so many, of which so many add a rounded propensity, with so many instants shown, the peak, and the clock, timers and generator
// that are left.
#[derive(Clone, Copy)]
pub struct Walked {
    pub end: PathEnd,
    pub steps: u64,
    pub rounded: u64,
    pub next: usize,
    pub peak: u64,
    pub clock: f64,
    pub timers: Ring,
    pub rng: Xoshiro256,
}

// One more, where a step adds a rounded propensity.
fn one_more(rounded: u64, so: bool) -> u64
    requires { rounded < 0xFFFF_FFFF_FFFF_FFFF }
    ensures { result ≡ rounded + Net.pick so 1 0 }
{
    if so {
        return rounded + 1;
    }
    rounded
}

// The end where the steps are done and another would follow.
fn out(halts: bool) -> PathEnd
    ensures { Ends.end_of result ≡ given (Playing.out_of halts) }
{
    if halts {
        return PathEnd::Halted;
    }
    PathEnd::Spent
}

// The answer of the steps, where they stop at `at`.
fn stopped(end: PathEnd, steps: u64, rounded: u64, at: Now) -> Walked
    ensures { (result.end ≡ end) × (result.steps ≡ steps) × (result.rounded ≡ rounded) × (result.next ≡ at.next) × (result.peak ≡ at.peak) × (result.clock ≡ at.clock)
        × (result.timers ≡ at.timers) × (result.rng ≡ at.rng) }
{
    let ring = at.timers;
    let rng = at.rng;
    Walked {
        end: end,
        steps: steps,
        rounded: rounded,
        next: at.next,
        peak: at.peak,
        clock: at.clock,
        timers: ring,
        rng: rng,
    }
}

// The steps of a path, at most so many; where another would follow, the path is halted or spent.
fn take_steps(
    net: &LentNet,
    tables: &Tables,
    counts: &mut [u64; 32],
    ats: &mut [f64; 256],
    owners: &mut [u64; 512],
    props: &mut [f64; 64],
    sums: &mut [f64; 64],
    room: usize,
    instants: &[f64],
    last: f64,
    table: &mut [f64],
    halts: bool,
    steps: u64,
    s: Now,
) -> Walked
    requires { let net = net_of net.now in Stepping.Ready net tables.now.limit counts.old ats.old owners.old s.timers × Stepping.Roomy room s.timers
        × Keeps.Tables net tables.now.rates tables.now.ends tables.now.guards tables.now.timed tables.now.heavy × Keeps.Carried net (Engine.marking net.places counts.old) s.kept props.old sums.old
        × (s.next ≤ length instants.now) × (length instants.now ≤ 1024) × (net.places * length instants.now ≤ length table.old)
        × Stepping.Topped room (Record.readable net) last steps
        (Stepping.state_of net counts.old ats.old owners.old s.timers s.clock s.rng.s) s.peak
        × (s.tokens ≡ Stepping.tokens_of (Stepping.state_of net counts.old ats.old owners.old s.timers s.clock s.rng.s))
        × (s.unit ≡ unit_wait (Random.words s.rng.s)) }
    ensures is { let net = net_of net.now in Playing.WalkBy
        (Play.higher s.peak (Play.play_within (Playing.out_of halts) room (Record.readable net) last steps (ListN.drop s.next instants.now)
        (Stepping.state_of net counts.old ats.old owners.old s.timers s.clock s.rng.s)))
        instants.now
        (Stepping.state_of net counts.new ats.new owners.new result.timers result.clock result.rng.s)
        (λ sh. Playing.Listed net.places (length instants.now) s.next result.next sh table.old table.new)
        result result.end }
    ensures kept { Engine.Counts counts.new × (length table.new ≡ length table.old)
        × Cells.Stay net.now.places (length instants.now) table.old table.new }
{
    let mut at = s;
    let mut done: u64 = 0;
    let mut rounded: u64 = 0;
    let mut end = PathEnd::Reached;
    let mut going = true;
    // The flag stays for speed: with an answer at each end, tried and measured, a step on the smallest net had 12 instructions more (now 2), and the landing that
    // had them took 1.08 of the time before, where 1.02 is allowed (docs/DECISIONS, "The loop of a path has one way out"; docs/LANDINGS). One answer, behind the loop.
    while going {
        let clock = at.clock;
        if clock < last {
            if done < steps {
                let r = step::one_step(
                    net, tables, counts, ats, owners, props, sums, room, instants, last, table, at,
                );
                let ending = r.ending;
                at = r.now;
                done += 1;
                rounded = one_more(rounded, r.rounded);
                match ending {
                    Ending::GoesOn => {}
                    Ending::Quiet => {
                        end = PathEnd::Quiet;
                        going = false;
                    }
                    Ending::Reached => {
                        going = false;
                    }
                    Ending::Refused(c) => {
                        end = PathEnd::Refused(c);
                        going = false;
                    }
                }
            } else {
                end = out(halts);
                going = false;
            }
        } else {
            going = false;
        }
    }
    stopped(end, done, rounded, at)
}

// All of so many transitions.
fn all_of(transitions: usize) -> u64
    requires { transitions ≤ 64 }
    ensures { (j : ℕ) → bit result j ≡ ltb j transitions }
{
    if transitions == 64 {
        return 0xFFFF_FFFF_FFFF_FFFF;
    }
    (1u64 << transitions) - 1
}

// Plays a path on from where it stands, at most so many steps. Its cells: what is shown on the way, and at the end the instants that are left, unless it is
// halted; +0 in every cell of the answer where the run is refused.
pub fn play_on(
    net: &LentNet,
    tables: &Tables,
    counts: &mut [u64; 32],
    ats: &mut [f64; 256],
    owners: &mut [u64; 512],
    room: usize,
    instants: &[f64],
    halts: bool,
    steps: u64,
    s: Standing,
    table: &mut [f64],
) -> Walked
    requires { let net = net_of net.now in Stepping.Ready net tables.now.limit counts.old ats.old owners.old s.timers × Stepping.Roomy room s.timers
        × Keeps.Tables net tables.now.rates tables.now.ends tables.now.guards tables.now.timed tables.now.heavy
        × (0 < length instants.now) × (s.next ≤ length instants.now) × (length instants.now ≤ 1024) × (net.places * length instants.now ≤ length table.old)
        × Stepping.Topped room (Record.readable net) (Shown.last_of instants.now) steps
        (Stepping.state_of net counts.old ats.old owners.old s.timers s.clock s.rng.s) s.peak
        × (s.tokens ≡ Stepping.tokens_of (Stepping.state_of net counts.old ats.old owners.old s.timers s.clock s.rng.s)) }
    ensures { let net = net_of net.now in Playing.PlayedBy
        (Play.higher s.peak (Play.play_within (Playing.out_of halts) room (Record.readable net) (Shown.last_of instants.now) steps
        (ListN.drop s.next instants.now)
        (Stepping.state_of net counts.old ats.old owners.old s.timers s.clock s.rng.s)))
        net.places instants.now s.next table.old table.new
        (Stepping.state_of net counts.new ats.new owners.new result.timers result.clock result.rng.s) result result.end }
{
    let mut props = [0.0; 64];
    let mut sums = [0.0; 64];
    let n = instants.len();
    let last = instants[n - 1];
    let ring = s.timers;
    let rng = s.rng;
    let kept = Keeping {
        moved: 0,
        crossed: all_of(net.transitions),
        able: 0,
        marks: 0,
        a0: 0.0,
    };
    let at = Now {
        clock: s.clock,
        timers: ring,
        next: s.next,
        tokens: s.tokens,
        peak: s.peak,
        rng: rng,
        kept: kept,
        unit: jump::unit_wait(rng),
    };
    let w = take_steps(
        net, tables, counts, ats, owners, &mut props, &mut sums, room, instants, last, table,
        halts, steps, at,
    );
    let end = w.end;
    shown::finish(table, counts, net.places, n, w.next, end);
    w
}
