// A path from its beginning: where it stands before the first step.
ghost use Rattle.std.specs.Prelude.{◌≡◌, ◌*◌, ◌≤◌, length};
ghost use Rattle.net.specs.Net.{zero64};
ghost use Rattle.rules.specs.Moments as Moments;
ghost use Rattle.engine.specs.Engine as Engine;
ghost use Rattle.timers.specs.Turning as Turning;
ghost use Rattle.playing.specs.Cells as Cells;

use crate::run::Standing;
use crate::shown;
use rng::Xoshiro256;

// The sum of the place counts.
pub fn sum(counts: &[u64; 32], places: usize) -> u64
    requires { (places ≤ 32) × Engine.Counts counts.now }
    ensures { result ≡ Moments.sum_of (Engine.marking places counts.now) }
{
    let mut total: u64 = 0;
    for p in 0..places {
        total += counts[p];
    }
    total
}

// A path that has taken no step: the clock at 0, no timer, the counts as they are; instants at most 0 are shown.
pub fn begin(
    instants: &[f64],
    table: &mut [f64],
    counts: &[u64; 32],
    places: usize,
    rng: Xoshiro256,
) -> Standing
    requires { (places ≤ 32) × (length instants.now ≤ 1024) × (places * length instants.now ≤ length table.old) × Engine.Counts counts.now }
    ensures { Cells.ShownBy places instants.now zero64 (Engine.marking places counts.now) 0 result.next table.old table.new
        × (result.clock ≡ zero64) × Turning.NoTimers result.timers × (result.tokens ≡ Moments.sum_of (Engine.marking places counts.now))
        × (result.peak ≡ result.tokens) × (result.rng ≡ rng) }
{
    let next = shown::show(instants, table, counts, places, 0.0, 0);
    let tokens = sum(counts, places);
    Standing {
        clock: 0.0,
        timers: timers::empty(),
        next,
        tokens,
        peak: tokens,
        rng,
    }
}
