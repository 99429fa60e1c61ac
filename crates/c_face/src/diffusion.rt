// The diffusion, its answer told in numbers.
ghost use Rattle.std.specs.Prelude.{◌≡◌};
ghost use Rattle.net.specs.Record.{labelled};
ghost use Rattle.sde.specs.Call as Call;
ghost use Rattle.c_face.specs.Diffused as Diffused;

use net::LentNet;
use sde::DiffusionAnswer;

// The refusal's number, 0 for averaged, 100 for gated; the number of the path that was refused, or 1 where there are deviations; what gates a gated
// net: the three counts, the mask of the bounded places, 1 where a transition is delayed.
fn diffusion_numbers(answer: DiffusionAnswer) -> [u64; 7]
    ensures { result ≡ Diffused.told_of (Call.outcome_of answer) }
{
    match answer {
        DiffusionAnswer::Averaged(deviations) => [0, u64::from(deviations), 0, 0, 0, 0, 0],
        DiffusionAnswer::Gated(g) => [
            100,
            0,
            g.reads,
            g.inhibitors,
            g.nonkinetic,
            g.bounded,
            u64::from(g.delayed),
        ],
        DiffusionAnswer::TurnedDown(c) => [c.number(), 0, 0, 0, 0, 0, 0],
        DiffusionAnswer::Stopped(c, k) => [c.number(), k, 0, 0, 0, 0, 0],
    }
}

// A diffusion over the net whose fields are lent.
#[unsafe(no_mangle)]
pub extern "C" fn cild_diffusion(
    places: usize,
    transitions: usize,
    initial: &[u64; 32],
    capacity: &[u64; 32],
    label: &[u8; 512],
    lengths: &[usize; 32],
    rate: &[f64; 64],
    delay: &[f64; 64],
    arcs: &[usize; 64],
    kind: &[u64; 1024],
    place: &[usize; 1024],
    weight: &[u64; 1024],
    samples: u64,
    realizations: u64,
    seed: u64,
    horizon: f64,
    mean: &mut [f64],
    deviation: &mut [f64],
    path: &mut [f64],
    told: &mut [u64; 7],
)
    ensures { Diffused.Left (Call.called (labelled places transitions initial.now capacity.now label.now lengths.now
        rate.now delay.now arcs.now kind.now place.now weight.now)
        (record { samples = samples; realizations = realizations; seed = seed; horizon = horizon })
        (record { mean = mean.old; deviation = deviation.old; path = path.old }))
        told.new mean.new deviation.new path.new }
{
    let net = LentNet {
        places,
        transitions,
        initial,
        capacity,
        label,
        lengths,
        rate,
        delay,
        arcs,
        kind,
        place,
        weight,
    };
    let answer = sde::diffuse(
        &net,
        samples,
        realizations,
        seed,
        horizon,
        mean,
        deviation,
        path,
    );
    *told = diffusion_numbers(answer);
}
