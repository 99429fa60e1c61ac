// Diffusion over a net: paths of the chemical Langevin equation, their means and deviations. In the contracts of the private functions, `net` is the
// record whose fields are lent.
#![tactic(auto)]

mod change;
mod paths;
mod propensity;
mod run;
mod substep;
mod walk;

ghost use Rattle.std.specs.Prelude.{◌≡◌, ◌*◌};
ghost use Rattle.net.specs.Readable as Readable;
ghost use Rattle.net.specs.Record.{net_of};
ghost use Rattle.net.specs.Tests as Tests;
ghost use Rattle.averages.specs.Request as Request;
ghost use Rattle.sde.specs.Call as Call;

use averages::request;
use gates::Gates;
use net::LentNet;
use refusals::Refusal;

// Whether there are deviations; or what gates the net; or the refusal that turned the call down; or the one that stopped a path, and the path's number.
#[derive(Clone, Copy)]
pub enum DiffusionAnswer {
    Averaged(bool),
    Gated(Gates),
    TurnedDown(Refusal),
    Stopped(Refusal, u64),
}

// The first refusal of the net, of the request, and of tables of these lengths.
fn call_fault(
    net: &LentNet,
    samples: u64,
    realizations: u64,
    seed: u64,
    horizon: f64,
    mean: usize,
    deviation: usize,
    path: usize,
) -> Result<(), Refusal>
    ensures { let net = net_of net.now in Readable.meaning result ≡ Tests.or_else (Readable.fault net)
        (Tests.or_else (Request.request_fault (record { samples = samples; realizations = realizations; seed = seed; horizon = horizon }))
        (Request.tables_fault (net.places * samples) mean deviation path)) }
{
    net::test_net(net)?;
    request::request_fault(samples, realizations, seed, horizon)?;
    let cells = net.places * (samples as usize);
    request::tables_fault(cells, mean, deviation, path)
}

// Paths of the chemical Langevin equation from consecutive seeds over a grid of instants, their means and deviations: place p at instant i is cell
// p * samples + i of each table. The last path stays in the path table. A net, a request or a table that does not fit is turned down, and a net that a
// continuous run cannot express is gated, with nothing touched. Where one normal draw rejects 128 pairs the answer's cells of all three tables are +0.
pub fn diffuse(
    net: &LentNet,
    samples: u64,
    realizations: u64,
    seed: u64,
    horizon: f64,
    mean: &mut [f64],
    deviation: &mut [f64],
    path: &mut [f64],
) -> DiffusionAnswer
    ensures { Call.call_of result mean.new deviation.new path.new
        ≡ Call.called (net_of net.now) (record { samples = samples; realizations = realizations; seed = seed; horizon = horizon })
        (record { mean = mean.old; deviation = deviation.old; path = path.old }) }
{
    if let Err(c) = call_fault(
        net,
        samples,
        realizations,
        seed,
        horizon,
        mean.len(),
        deviation.len(),
        path.len(),
    ) {
        return DiffusionAnswer::TurnedDown(c);
    }
    paths::accepted(
        net,
        samples,
        realizations,
        seed,
        horizon,
        mean,
        deviation,
        path,
    )
}
