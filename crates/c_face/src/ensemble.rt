// The ensemble, its answer told in numbers.
ghost use Rattle.std.specs.Prelude.{◌≡◌};
ghost use Rattle.net.specs.Record.{labelled};
ghost use Rattle.ssa.specs.Ensemble as Ensemble;
ghost use Rattle.c_face.specs.Averaged as Averaged;

use net::LentNet;
use ssa::EnsembleAnswer;

// The refusal's number, or 0; the number of the path that was refused, or how many were spent; 1 where there are deviations.
fn ensemble_numbers(answer: EnsembleAnswer) -> [u64; 3]
    ensures { result ≡ Averaged.told_of (Ensemble.outcome_of answer) }
{
    match answer {
        EnsembleAnswer::Averaged(spent, deviates) => [0, spent, u64::from(deviates)],
        EnsembleAnswer::TurnedDown(c) => [c.number(), 0, 0],
        EnsembleAnswer::Stopped(c, k) => [c.number(), k, 0],
    }
}

// An ensemble over the net whose fields are lent.
#[unsafe(no_mangle)]
pub extern "C" fn cild_ensemble(
    places: usize,
    transitions: usize,
    initial: &[u64; 32],
    capacity: &[u64; 32],
    label: &[u8; 512],
    lengths: &[usize; 32],
    rate: &[f64; 64],
    delay: &[f64; 64],
    arcs: &[usize; 64],
    kind: &[u64; 1024],
    place: &[usize; 1024],
    weight: &[u64; 1024],
    samples: u64,
    realizations: u64,
    seed: u64,
    horizon: f64,
    mean: &mut [f64],
    deviation: &mut [f64],
    path: &mut [f64],
    told: &mut [u64; 3],
)
    ensures { Averaged.Left (Ensemble.called (labelled places transitions initial.now capacity.now label.now lengths.now
        rate.now delay.now arcs.now kind.now place.now weight.now)
        (record { samples = samples; realizations = realizations; seed = seed; horizon = horizon })
        (record { mean = mean.old; deviation = deviation.old; path = path.old }))
        told.new mean.new deviation.new path.new }
{
    let net = LentNet {
        places,
        transitions,
        initial,
        capacity,
        label,
        lengths,
        rate,
        delay,
        arcs,
        kind,
        place,
        weight,
    };
    let answer = ssa::ensemble(
        &net,
        samples,
        realizations,
        seed,
        horizon,
        mean,
        deviation,
        path,
    );
    *told = ensemble_numbers(answer);
}
