// The ensemble of a call that no test turns down: the tables that it makes once, its paths, and what is made of their sums.
ghost use Rattle.std.specs.Prelude.{◌≡◌, not, ℕ, ◌*◌, ◌^◌, ◌<◌, ◌≤◌, eqb, length, get_or};
ghost use Rattle.std.proofs.Math.Option.{none};
ghost use Rattle.net.specs.Net.{pick};
ghost use Rattle.net.specs.Readable as Record;
ghost use Rattle.net.specs.Record.{net_of};
ghost use Rattle.net.specs.declared.Net.{Net as NetRecord};
ghost use Rattle.rules.specs.Propensity.{float};
ghost use Rattle.averages.specs.Front as Front;
ghost use Rattle.averages.specs.Moments as Moments;
ghost use Rattle.averages.specs.Request as Request;
ghost use Rattle.averages.specs.Tables as Calls;
ghost use Rattle.engine.specs.Engine as Engine;
ghost use Rattle.playing.specs.Cells as Cells;
ghost use Rattle.ssa.specs.Ensemble as Ensemble;
ghost use Rattle.ssa.specs.Path as Path;
ghost use Rattle.ssa.specs.Summing as Summing;

use crate::{EnsembleAnswer, members};
use averages::{moments, request};
use engine::slots::{self, Slots};
use kept::tables::Tables;
use net::LentNet;
use playing::{shown, tables};
use refusals::Refusal;

// The step limit of an ensemble's paths.
const MOST_STEPS: u64 = 1_000_000;

// Turns the sums over so many paths into means and deviations; with one path the deviations are +0. Are there deviations?
fn finish(cells: usize, realizations: u64, mean: &mut [f64], deviation: &mut [f64]) -> bool
    requires { (realizations ≤ 65_535) × (cells ≤ length deviation.old) }
    ensures { (result ≡ not (eqb realizations 1)) × (mean.new ≡ Front.on_front (Moments.mean_of (float realizations)) cells mean.old)
        × (deviation.new ≡ pick (eqb realizations 1) (Cells.cleared cells deviation.old)
        (Front.with_front (Moments.deviation_of (float realizations)) cells mean.new deviation.old)) }
{
    let n = realizations as f64;
    moments::to_means(cells, n, mean);
    if realizations == 1 {
        shown::clear(deviation, cells);
        return false;
    }
    moments::to_deviations(cells, n, mean, deviation);
    true
}

// The paths of the tidy net whose fields are lent, at instants that fit, and what is made of their sums. A refused path leaves +0 in the answer's
// cells of the path table; the others are cleared here.
fn averaged(
    net: &LentNet,
    tables: &Tables,
    instants: &[f64],
    steps: u64,
    seed: u64,
    realizations: u64,
    mean: &mut [f64],
    deviation: &mut [f64],
    path: &mut [f64],
) -> EnsembleAnswer
    requires { let net = net_of net.now in Summing.Lent net tables.now.limit tables.now.rates tables.now.ends tables.now.guards tables.now.timed tables.now.heavy instants.now × (realizations ≤ 65_535) × (net.places * length instants.now ≤ length mean.old)
        × (net.places * length instants.now ≤ length deviation.old) × (net.places * length instants.now ≤ length path.old) }
    ensures { let net = net_of net.now in Ensemble.call_of result mean.new deviation.new path.new
        ≡ Ensemble.tabulated net.places (length instants.now)
        (record { mean = mean.old; deviation = deviation.old; path = path.old })
        (Summing.paths_from (Summing.drawn (Record.readable net) seed instants.now steps) 0 realizations) }
{
    let cells = net.places * instants.len();
    shown::clear(mean, cells);
    shown::clear(deviation, cells);
    match members::sum_paths(
        net,
        tables,
        instants,
        steps,
        seed,
        realizations,
        mean,
        deviation,
        path,
    ) {
        Err((c, k)) => {
            shown::clear(mean, cells);
            shown::clear(deviation, cells);
            EnsembleAnswer::Stopped(c, k)
        }
        Ok(spent) => {
            let deviates = finish(cells, realizations, mean, deviation);
            EnsembleAnswer::Averaged(spent, deviates)
        }
    }
}

// The ensemble over the tidy net whose fields are lent: the tables that a call makes once, then its paths.
fn lent_ensemble(
    net: &LentNet,
    samples: u64,
    realizations: u64,
    seed: u64,
    horizon: f64,
    mean: &mut [f64],
    deviation: &mut [f64],
    path: &mut [f64],
) -> EnsembleAnswer
    requires { let net = net_of net.now in Engine.Tidy net × ((p : ℕ) → p < net.places → get_or net.initial p 0 ≤ 2 ^ 53)
        × (Request.request_fault (record { samples = samples; realizations = realizations; seed = seed; horizon = horizon }) ≡ none)
        × (net.places * samples ≤ length mean.old) × (net.places * samples ≤ length deviation.old) × (net.places * samples ≤ length path.old) }
    ensures { let net = net_of net.now in Ensemble.call_of result mean.new deviation.new path.new
        ≡ Ensemble.tabulated net.places samples (record { mean = mean.old; deviation = deviation.old; path = path.old })
        (Ensemble.members_from (Record.readable net) (record { samples = samples; realizations = realizations; seed = seed; horizon = horizon }) 0 realizations) }
{
    let mut tables = kept::tables::empty();
    tables::fill_tables(net, &mut tables);
    let mut grid = [0.0; 1024];
    let few = samples as u32;
    request::fill_grid(few, request::interval(few, horizon), &mut grid);
    let n = samples as usize;
    averaged(
        net,
        &tables,
        &grid[..n],
        MOST_STEPS,
        seed,
        realizations,
        mean,
        deviation,
        path,
    )
}

// The first test that an ensemble's call meets: those of its net, of its request, and of its tables.
pub fn call_fault(
    net: &LentNet,
    samples: u64,
    realizations: u64,
    seed: u64,
    horizon: f64,
    mean: &[f64],
    deviation: &[f64],
    path: &[f64],
) -> Result<(), Refusal>
    ensures { Record.meaning result ≡ Calls.call_fault (net_of net.now) (record { samples = samples; realizations = realizations; seed = seed; horizon = horizon })
        (record { mean = mean.now; deviation = deviation.now; path = path.now }) }
{
    net::test_net(net)?;
    request::request_fault(samples, realizations, seed, horizon)?;
    let cells = net.places * (samples as usize);
    request::tables_fault(cells, mean.len(), deviation.len(), path.len())
}

// The ensemble of a call that no test turns down.
pub fn accepted(
    net: &LentNet,
    samples: u64,
    realizations: u64,
    seed: u64,
    horizon: f64,
    mean: &mut [f64],
    deviation: &mut [f64],
    path: &mut [f64],
) -> EnsembleAnswer
    requires { let net = net_of net.now in (Record.fault net ≡ none) × (Request.request_fault (record { samples = samples; realizations = realizations; seed = seed; horizon = horizon }) ≡ none)
        × (net.places * samples ≤ length mean.old) × (net.places * samples ≤ length deviation.old) × (net.places * samples ≤ length path.old) }
    ensures { let net = net_of net.now in Ensemble.call_of result mean.new deviation.new path.new ≡ Ensemble.tabulated net.places samples
        (record { mean = mean.old; deviation = deviation.old; path = path.old })
        (Ensemble.members_from (Record.readable net) (record { samples = samples; realizations = realizations; seed = seed; horizon = horizon }) 0 realizations) }
{
    let mut slots = Slots::blank();
    slots.fill(net);
    // Lent anew, for no longer than the slots.
    let fields = *net;
    lent_ensemble(
        &slots.of(&fields),
        samples,
        realizations,
        seed,
        horizon,
        mean,
        deviation,
        path,
    )
}
