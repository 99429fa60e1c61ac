// Whether weights balance a net, the answer told in numbers.
ghost use Rattle.std.specs.Prelude.{◌≡◌};
ghost use Rattle.net.specs.Record.{labelled};
ghost use Rattle.balance.specs.Call.{called, call_of};
ghost use Rattle.c_face.specs.Weighed.{told_of};

use net::LentNet;
use refusals::Refusal;

// The refusal's number, or 100 for balanced and 101 for unbalanced; and the transition.
fn balance_numbers(answer: Result<Option<usize>, Refusal>) -> [u64; 2]
    ensures { result ≡ told_of (call_of answer) }
{
    match answer {
        Ok(None) => [100, 0],
        Ok(Some(j)) => [101, j as u64],
        Err(c) => [c.number(), 0],
    }
}

// The balance of the net whose fields are lent. The refusal's number goes to told, or the number of the answer, with its transition.
#[unsafe(no_mangle)]
pub extern "C" fn cild_balance(
    places: usize,
    transitions: usize,
    initial: &[u64; 32],
    capacity: &[u64; 32],
    label: &[u8; 512],
    lengths: &[usize; 32],
    rate: &[f64; 64],
    delay: &[f64; 64],
    arcs: &[usize; 64],
    kind: &[u64; 1024],
    place: &[usize; 1024],
    weight: &[u64; 1024],
    weights: &[u64],
    told: &mut [u64; 2],
)
    ensures { told.new ≡ told_of (called (labelled places transitions initial.now capacity.now label.now lengths.now
        rate.now delay.now arcs.now kind.now place.now weight.now) weights.now) }
{
    let net = LentNet {
        places,
        transitions,
        initial,
        capacity,
        label,
        lengths,
        rate,
        delay,
        arcs,
        kind,
        place,
        weight,
    };
    let r = balance::balance(&net, weights);
    *told = balance_numbers(r);
}
