// A path from its beginning, and what a path call answers of it.
ghost use Rattle.std.specs.Prelude.{◌≡◌, true, List, ◌*◌, ◌<◌, ◌≤◌, Float, length};
ghost use Rattle.net.specs.Net.{zero64};
ghost use Rattle.net.specs.Readable as Record;
ghost use Rattle.net.specs.Record.{net_of};
ghost use Rattle.net.specs.declared.Net.{Net as NetRecord};
ghost use Rattle.rng.specs.State as Random;
ghost use Rattle.rules.specs.Moves as Moves;
ghost use Rattle.rules.specs.Shown as Shown;
ghost use Rattle.engine.specs.Engine as Engine;
ghost use Rattle.engine.specs.Limits as Limits;
ghost use Rattle.playing.specs.Keeping as Keeps;
ghost use Rattle.ssa.specs.Path as Path;
ghost use Rattle.ssa.specs.Told as Told;

use crate::PathAnswer;
use kept::tables::Tables;
use net::LentNet;
use playing::run::Walked;
use playing::{PathEnd, begin, run};
use rng::Xoshiro256;

// How many instants are settled.
pub fn settled(end: PathEnd, next: usize, n: usize) -> u64
    ensures { result ≡ Told.settled_at end next n }
{
    match end {
        PathEnd::Quiet => n as u64,
        PathEnd::Spent => next as u64,
        PathEnd::Reached => n as u64,
        PathEnd::Halted => next as u64,
        PathEnd::Refused(_) => n as u64,
    }
}

// What a path call answers of it.
fn answer(w: Walked, n: usize, rng: Xoshiro256) -> PathAnswer
    ensures { (table : List Float) → Path.call_of result table ≡ Told.answer_of w n (Random.words rng.s) table w.end }
{
    let end = w.end;
    if let PathEnd::Refused(c) = end {
        return PathAnswer {
            end: PathEnd::Refused(c),
            steps: 0,
            settled: 0,
            peak: 0,
            rounded: 0,
            generator: rng,
        };
    }
    let g = w.rng;
    PathAnswer {
        end: end,
        steps: w.steps,
        settled: settled(end, w.next, n),
        peak: w.peak,
        rounded: w.rounded,
        generator: g,
    }
}

// A path from the initial counts: its answer, and the table filled, or cleared where the run is refused.
pub fn play(
    net: &LentNet,
    tables: &Tables,
    counts: &mut [u64; 32],
    instants: &[f64],
    steps: u64,
    rng: Xoshiro256,
    table: &mut [f64],
) -> PathAnswer
    requires { let net = net_of net.now in Engine.Tidy net × Limits.Limits net tables.now.limit × Engine.Counts counts.old
        × (Engine.marking net.places counts.old ≡ Moves.initial_counts (Record.readable net)) × Keeps.Tables net tables.now.rates tables.now.ends tables.now.guards tables.now.timed tables.now.heavy
        × (0 < length instants.now) × (length instants.now ≤ 1024) × (Shown.rising zero64 instants.now ≡ true)
        × (net.places * length instants.now ≤ length table.old) }
    ensures { let net = net_of net.now in Path.call_of result table.new ≡ Path.played net.places (length instants.now) (Random.words rng.s) table.old
        (Shown.worked (Record.readable net) (Random.words rng.s) instants.now steps) }
{
    let mut ats = [0.0; 256];
    let mut owners = [0u64; 512];
    let n = instants.len();
    let s = begin::begin(instants, table, counts, net.places, rng);
    let w = run::play_on(
        net,
        tables,
        counts,
        &mut ats,
        &mut owners,
        run::ROOM,
        instants,
        false,
        steps,
        s,
        table,
    );
    answer(w, n, rng)
}
