// A path that is halted after a number of steps, and one that is carried to another net, their answers told in numbers and the path in words and times
// (halted_words).
ghost use Rattle.std.specs.Prelude.{◌≡◌, List, ℕ, Float};
ghost use Rattle.net.specs.Record.{labelled};
ghost use Rattle.rng.specs.State.{words};
ghost use Rattle.carried.specs.Pairs.{pairs_of};
ghost use Rattle.ssa.specs.Halted as Halting;
ghost use Rattle.c_face.specs.Halted as Told;

use crate::{halted_words, path};
use net::LentNet;
use rng::Xoshiro256;
use ssa::{Halted, Onward, PathEnd};

// The path that words and times hold.
fn path_in<'a>(halted: &'a [u64; 816], times: &'a [f64; 257]) -> Halted
    ensures { (places : ℕ) → Halting.standing_of places result ≡ Told.standing_in places halted.now times.now }
{
    Halted {
        clock: times[0],
        counts: halted_words::counts_in(halted),
        generator: Xoshiro256::from_state(halted_words::generator_in(halted)),
        steps: halted[36],
        limit: halted[37],
        peak: halted[38],
        rounded: halted[39],
        recorded: halted[40] as usize,
        timers: halted_words::timers_in(halted, times),
    }
}

// Tells an answer; a refused one leaves words and times as they are.
fn leave(
    places: usize,
    r: Onward,
    halted: &mut [u64; 816],
    times: &mut [f64; 257],
    told: &mut [u64; 5],
)
    ensures { (table : List Float) → Told.Left (Halting.call_of places r table) told.new halted.old times.old
        halted.new times.new table }
{
    let end = r.end;
    if let PathEnd::Refused(c) = end {
        *told = [c.number(), 0, 0, 0, 0];
        return;
    }
    let s = r.state;
    let g = s.generator;
    let q = s.timers;
    let w = g.state();
    *told = [path::end_number(end), s.steps, r.settled, s.peak, s.rounded];
    halted_words::write_words(
        halted,
        places,
        &s.counts,
        &[
            w[0],
            w[1],
            w[2],
            w[3],
            s.steps,
            s.limit,
            s.peak,
            s.rounded,
            s.recorded as u64,
            q.len as u64,
        ],
        &q.whos,
        &q.takens,
        q.len,
    );
    halted_words::write_times(times, s.clock, &q.ats, q.len);
}

// A path of the net whose fields are lent that names a number of steps, from the state, which is left as the path leaves it. The number of the end goes to told,
// with the steps, the settled instants, the peak and the rounded steps, and where the path stands to halted and times, unless it is refused.
#[unsafe(no_mangle)]
pub extern "C" fn cild_path_until<'a>(
    places: usize,
    transitions: usize,
    initial: &'a [u64; 32],
    capacity: &'a [u64; 32],
    label: &'a [u8; 512],
    lengths: &'a [usize; 32],
    rate: &'a [f64; 64],
    delay: &'a [f64; 64],
    arcs: &'a [usize; 64],
    kind: &'a [u64; 1024],
    place: &'a [usize; 1024],
    weight: &'a [u64; 1024],
    state: &mut [u64; 4],
    instants: &[f64],
    limit: u64,
    named: u64,
    table: &mut [f64],
    halted: &mut [u64; 816],
    times: &mut [f64; 257],
    told: &mut [u64; 5],
)
    ensures is { let call = Halting.naming (labelled places transitions initial.now capacity.now label.now
        lengths.now rate.now delay.now arcs.now kind.now place.now weight.now)
        (words state.old) instants.now limit named table.old in
        Told.Left call told.new halted.old times.old halted.new times.new table.new
        × (words state.new ≡ call.state.now.generator) }
{
    let net = LentNet {
        places,
        transitions,
        initial,
        capacity,
        label,
        lengths,
        rate,
        delay,
        arcs,
        kind,
        place,
        weight,
    };
    let r = ssa::path_until(
        &net,
        Xoshiro256::from_state(*state),
        instants,
        limit,
        named,
        table,
    );
    let s = r.state;
    let generator = s.generator;
    *state = generator.state();
    leave(places, r, halted, times, told);
}

// The path that halted and times hold, carried from the old net to the new one by pairs of old and new transition numbers, two words a pair, and played on there
// for at most so many steps. What is told and left is as of cild_path_until; a refused call leaves halted and times as they are.
#[unsafe(no_mangle)]
pub extern "C" fn cild_carry<'a>(
    old_places: usize,
    old_transitions: usize,
    old_initial: &'a [u64; 32],
    old_capacity: &'a [u64; 32],
    old_label: &'a [u8; 512],
    old_lengths: &'a [usize; 32],
    old_rate: &'a [f64; 64],
    old_delay: &'a [f64; 64],
    old_arcs: &'a [usize; 64],
    old_kind: &'a [u64; 1024],
    old_place: &'a [usize; 1024],
    old_weight: &'a [u64; 1024],
    places: usize,
    transitions: usize,
    initial: &'a [u64; 32],
    capacity: &'a [u64; 32],
    label: &'a [u8; 512],
    lengths: &'a [usize; 32],
    rate: &'a [f64; 64],
    delay: &'a [f64; 64],
    arcs: &'a [usize; 64],
    kind: &'a [u64; 1024],
    place: &'a [usize; 1024],
    weight: &'a [u64; 1024],
    pairs: &[u64],
    instants: &[f64],
    named: u64,
    table: &mut [f64],
    halted: &mut [u64; 816],
    times: &mut [f64; 257],
    told: &mut [u64; 5],
)
    ensures { Told.Left (Halting.carrying
        (labelled old_places old_transitions old_initial.now old_capacity.now old_label.now
        old_lengths.now old_rate.now old_delay.now old_arcs.now old_kind.now
        old_place.now old_weight.now)
        (labelled places transitions initial.now capacity.now label.now lengths.now rate.now
        delay.now arcs.now kind.now place.now weight.now)
        (pairs_of pairs.now) (Told.standing_in old_places halted.old times.old) instants.now named table.old)
        told.new halted.old times.old halted.new times.new table.new }
{
    let path = path_in(halted, times);
    let old = LentNet {
        places: old_places,
        transitions: old_transitions,
        initial: old_initial,
        capacity: old_capacity,
        label: old_label,
        lengths: old_lengths,
        rate: old_rate,
        delay: old_delay,
        arcs: old_arcs,
        kind: old_kind,
        place: old_place,
        weight: old_weight,
    };
    let net = LentNet {
        places,
        transitions,
        initial,
        capacity,
        label,
        lengths,
        rate,
        delay,
        arcs,
        kind,
        place,
        weight,
    };
    let r = ssa::carry(&old, &net, pairs, path, instants, named, table);
    leave(old_places, r, halted, times, told);
}
