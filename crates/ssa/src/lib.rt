// Paths of a stochastic Petri net: one path, drawn from a generator's state, and the averages over an ensemble of paths.
#![tactic(auto)]

mod accept;
mod averaging;
mod change;
mod members;
mod start;
mod until;

ghost use Rattle.std.specs.Prelude.{◌≡◌};
ghost use Rattle.net.specs.Record.{labelled, net_of};
ghost use Rattle.rng.specs.State as Random;
ghost use Rattle.ssa.specs.Ensemble as Ensemble;
ghost use Rattle.carried.specs.Pairs.{pairs_of};
ghost use Rattle.ssa.specs.Halted as Halting;
ghost use Rattle.ssa.specs.Path as Path;

use net::LentNet;
pub use playing::PathEnd;
use refusals::Refusal;
use rng::Xoshiro256;
use timers::queue::Queue;

// The end of a path, its steps, how many instants are settled, the peak, how many steps have an a0 that adds a rounded propensity, and the generator after
// it; of a path that is turned down the number, four times 0, and the generator as it came.
#[derive(Clone, Copy)]
pub struct PathAnswer {
    pub end: PathEnd,
    pub steps: u64,
    pub settled: u64,
    pub peak: u64,
    pub rounded: u64,
    pub generator: Xoshiro256,
}

// A path between two steps, as a call halts it and the next takes it up: the clock, the counts, the generator, the steps so far and their limit, the peak and the
// number of rounded steps so far, how many instants are recorded, and the running timers, the first to leave first. Instants and table are lent beside it.
#[derive(Clone, Copy)]
pub struct Halted {
    pub clock: f64,
    pub counts: [u64; 32],
    pub generator: Xoshiro256,
    pub steps: u64,
    pub limit: u64,
    pub peak: u64,
    pub rounded: u64,
    pub recorded: usize,
    pub timers: Queue,
}

// The end of a path that names a number of steps or was carried, how many instants are settled, and where it stands.
#[derive(Clone, Copy)]
pub struct Onward {
    pub end: PathEnd,
    pub settled: u64,
    pub state: Halted,
}

// How many paths of an ensemble were spent, and whether there are deviations; or the refusal by which the call was turned down; or the refusal of a path, and
// the path's own number. Three ways that callers tell apart (cild_ensemble): as a Result its error would be an enum of the last two.
#[derive(Clone, Copy)]
pub enum EnsembleAnswer {
    Averaged(u64, bool),
    TurnedDown(Refusal),
    Stopped(Refusal, u64),
}

// A path of the net whose fields are lent, from the generator's state: place p at instant i is cell p * n + i of the table, n instants. The end, the steps,
// how many instants are settled, the peak, how many steps add a rounded propensity and the generator after it are the answer. A net, instants, a limit or a
// table that does not fit is turned down with nothing touched; a run in which a count would pass 2^53 or a 257th timer would start leaves +0 in the answer's
// cells.
pub fn path(
    net: &LentNet,
    generator: Xoshiro256,
    instants: &[f64],
    limit: u64,
    table: &mut [f64],
) -> PathAnswer
    ensures { Path.call_of result table.new ≡ Path.called (net_of net.now) (Random.words generator.s) instants.now limit table.old }
{
    match accept::call_fault(net, instants, limit, table) {
        Ok(()) => accept::accepted_path(net, generator, instants, limit, table),
        Err(c) => accept::turned_down(c, generator),
    }
}

// A path of the net whose fields are lent that names a number of steps: once it has done that many and another would follow, it is halted, with the cells of the
// instants that it has not recorded left as they were. The end, how many instants are settled and where the path stands are the answer; of a path that is turned
// down the number, 0, and the state of a path that has not begun. What is turned down, and what is then touched, is as of `path`.
pub fn path_until(
    net: &LentNet,
    generator: Xoshiro256,
    instants: &[f64],
    limit: u64,
    named: u64,
    table: &mut [f64],
) -> Onward
    ensures { Halting.call_of net.now.places result table.new ≡ Halting.naming (net_of net.now) (Random.words generator.s) instants.now limit named table.old }
{
    match accept::call_fault(net, instants, limit, table) {
        Ok(()) => until::accepted_until(net, generator, instants, limit, named, table),
        Err(c) => until::refused(c, generator),
    }
}

// A path that was halted over the old net, carried to the new one by a renaming list, two words a pair, and played on there, for at most so many steps of this
// call's own. The answer is as of `path_until`. A net, a state, instants, a limit, a table, a recorded cell or a list that does not fit is turned down with the
// state given back and nothing touched; a run in which a count would pass 2^53 or a 257th timer would start gives the state back as it was carried and leaves
// +0 in every cell of the answer.
pub fn carry(
    old: &LentNet,
    net: &LentNet,
    pairs: &[u64],
    path: Halted,
    instants: &[f64],
    named: u64,
    table: &mut [f64],
) -> Onward
    ensures { Halting.call_of old.now.places result table.new ≡ Halting.carrying (net_of old.now) (net_of net.now)
        (pairs_of pairs.now) (Halting.standing_of old.now.places path) instants.now named table.old }
{
    match change::carry_fault(old, net, pairs, &path, instants, table) {
        Ok(()) => change::accepted_carry(net, pairs, path, instants, named, table),
        Err(c) => until::turned_down(c, path),
    }
}

// Paths from consecutive seeds over a grid of instants: their means and deviations go to the first cells of those tables, place p at instant i in cell
// p * samples + i, and the last path to the path table. How many paths were spent is the answer, and whether there are deviations. A net, samples,
// realizations, a horizon or a table that does not fit is turned down with nothing touched; a path that is refused leaves +0 in the answer's cells of
// all three tables, and its number is given.
pub fn ensemble(
    net: &LentNet,
    samples: u64,
    realizations: u64,
    seed: u64,
    horizon: f64,
    mean: &mut [f64],
    deviation: &mut [f64],
    path: &mut [f64],
) -> EnsembleAnswer
    ensures { Ensemble.call_of result mean.new deviation.new path.new
        ≡ Ensemble.called (net_of net.now) (record { samples = samples; realizations = realizations; seed = seed; horizon = horizon })
        (record { mean = mean.old; deviation = deviation.old; path = path.old }) }
{
    match averaging::call_fault(
        net,
        samples,
        realizations,
        seed,
        horizon,
        mean,
        deviation,
        path,
    ) {
        Ok(()) => averaging::accepted(
            net,
            samples,
            realizations,
            seed,
            horizon,
            mean,
            deviation,
            path,
        ),
        Err(c) => EnsembleAnswer::TurnedDown(c),
    }
}
