// The index of a net, the answer told as a number.
ghost use Rattle.std.specs.Prelude.{◌≡◌};
ghost use Rattle.net.specs.Readable as Record;
ghost use Rattle.net.specs.Record.{labelled};
ghost use Rattle.c_face.specs.Indexed as Indexed;

use net::LentNet;
use refusals::Refusal;

// The refusal's number, or 0.
fn verdict_number(verdict: Result<(), Refusal>) -> u64
    ensures { result ≡ Indexed.number_of verdict }
{
    match verdict {
        Ok(()) => 0,
        Err(c) => c.number(),
    }
}

// The index of the net whose fields are lent: bit j of masks[p] is set where transition j is listed for place p, and 0 is returned. A net that is turned down
// returns its number, and leaves the masks as they were.
#[unsafe(no_mangle)]
pub extern "C" fn cild_index(
    places: usize,
    transitions: usize,
    initial: &[u64; 32],
    capacity: &[u64; 32],
    label: &[u8; 512],
    lengths: &[usize; 32],
    rate: &[f64; 64],
    delay: &[f64; 64],
    arcs: &[usize; 64],
    kind: &[u64; 1024],
    place: &[usize; 1024],
    weight: &[u64; 1024],
    masks: &mut [u64; 32],
) -> u64
    ensures { let net = labelled places transitions initial.now capacity.now label.now lengths.now
        rate.now delay.now arcs.now kind.now place.now weight.now in
        Indexed.Left (Record.fault net) (Record.readable net) masks.old masks.new result }
{
    let net = LentNet {
        places,
        transitions,
        initial,
        capacity,
        label,
        lengths,
        rate,
        delay,
        arcs,
        kind,
        place,
        weight,
    };
    let verdict = index::index_of(&net, masks);
    verdict_number(verdict)
}
