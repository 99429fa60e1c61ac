// The game, its answer told in numbers.
ghost use Rattle.std.specs.Prelude.{◌≡◌};
ghost use Rattle.net.specs.Record.{labelled};
ghost use Rattle.game.specs.Call.{called, call_of};
ghost use Rattle.game.specs.Play.{first_of};
ghost use Rattle.c_face.specs.Searched.{answer_number, fired_first, told_of};

use game::{FaultFound, First};
use net::LentNet;
use refusals::Refusal;

// The number of an answer: 100 for no, 101 for already there, 102 for a pass, 103 for a transition.
fn answer_number(first: Option<First>) -> u64
    ensures { result ≡ answer_number (first_of first) }
{
    match first {
        None => 100,
        Some(First::Already) => 101,
        Some(First::Passes) => 102,
        Some(First::Fires(_)) => 103,
    }
}

// The transition of an answer, 0 where it has none.
fn fired_first(first: Option<First>) -> u64
    ensures { result ≡ fired_first (first_of first) }
{
    match first {
        Some(First::Fires(j)) => j as u64,
        _ => 0,
    }
}

fn numbers(answer: Result<FaultFound, Refusal>) -> [u64; 3]
    ensures { result ≡ told_of (call_of answer) }
{
    match answer {
        Err(c) => [c.number(), 0, 0],
        Ok(r) => [answer_number(r.first), fired_first(r.first), r.examined],
    }
}

// The game on the net whose fields are lent. The refusal's number goes to told, or the number of the answer, with its transition and the positions
// examined.
#[unsafe(no_mangle)]
pub extern "C" fn cild_game(
    places: usize,
    transitions: usize,
    initial: &[u64; 32],
    capacity: &[u64; 32],
    label: &[u8; 512],
    lengths: &[usize; 32],
    rate: &[f64; 64],
    delay: &[f64; 64],
    arcs: &[usize; 64],
    kind: &[u64; 1024],
    place: &[usize; 1024],
    weight: &[u64; 1024],
    sides: &[u64],
    wanted: u64,
    count: u64,
    turns: u64,
    told: &mut [u64; 3],
)
    ensures { told.new ≡ told_of (called (labelled places transitions initial.now capacity.now label.now lengths.now
        rate.now delay.now arcs.now kind.now place.now weight.now) sides.now wanted count turns) }
{
    let net = LentNet {
        places,
        transitions,
        initial,
        capacity,
        label,
        lengths,
        rate,
        delay,
        arcs,
        kind,
        place,
        weight,
    };
    let r = game::game(&net, sides, wanted as usize, count, turns);
    *told = numbers(r);
}
