// The path, its answer told in numbers.
ghost use Rattle.std.specs.Prelude.{◌≡◌};
ghost use Rattle.net.specs.Record.{labelled};
ghost use Rattle.rng.specs.State.{words};
ghost use Rattle.ssa.specs.Path as Path;
ghost use Rattle.c_face.specs.Played as Played;

use net::LentNet;
use rng::Xoshiro256;
use ssa::PathEnd;

// The number of an end: the refusal's own, or 100 for quiet, 101 for spent, 102 for reached, 103 for halted.
pub fn end_number(end: PathEnd) -> u64
    ensures { result ≡ Played.end_number (Path.end_of end) }
{
    match end {
        PathEnd::Quiet => 100,
        PathEnd::Spent => 101,
        PathEnd::Reached => 102,
        PathEnd::Halted => 103,
        PathEnd::Refused(c) => c.number(),
    }
}

// A path of the net whose fields are lent, from the state, which is left as the path leaves it. The number of the end goes to told, with the
// steps, the settled instants, the peak and the steps whose a0 adds a rounded propensity.
#[unsafe(no_mangle)]
pub extern "C" fn cild_path<'a>(
    places: usize,
    transitions: usize,
    initial: &'a [u64; 32],
    capacity: &'a [u64; 32],
    label: &'a [u8; 512],
    lengths: &'a [usize; 32],
    rate: &'a [f64; 64],
    delay: &'a [f64; 64],
    arcs: &'a [usize; 64],
    kind: &'a [u64; 1024],
    place: &'a [usize; 1024],
    weight: &'a [u64; 1024],
    state: &mut [u64; 4],
    instants: &[f64],
    limit: u64,
    table: &mut [f64],
    told: &mut [u64; 5],
)
    ensures { Played.Left (Path.called (labelled places transitions initial.now capacity.now label.now lengths.now
        rate.now delay.now arcs.now kind.now place.now weight.now) (words state.old) instants.now limit table.old)
        told.new (words state.new) table.new }
{
    let net = LentNet {
        places,
        transitions,
        initial,
        capacity,
        label,
        lengths,
        rate,
        delay,
        arcs,
        kind,
        place,
        weight,
    };
    let r = ssa::path(&net, Xoshiro256::from_state(*state), instants, limit, table);
    let end = r.end;
    *told = [end_number(end), r.steps, r.settled, r.peak, r.rounded];
    let generator = r.generator;
    *state = generator.state();
}
