// What a carrying call tests after its nets, and the path of one that is accepted.
ghost use Rattle.std.specs.Prelude.{◌≡◌, false, not, List, ℕ, ◌*◌, ◌≤◌, Float, length};
ghost use Rattle.std.proofs.Math.Option.{none};
ghost use Rattle.net.specs.Net as Net;
ghost use Rattle.net.specs.Readable as Record;
ghost use Rattle.net.specs.Record.{net_of};
ghost use Rattle.net.specs.Tests as Tests;
ghost use Rattle.net.specs.declared.Net.{Net as NetRecord};
ghost use Rattle.rng.specs.State as Random;
ghost use Rattle.rules.specs.Carried as Rule;
ghost use Rattle.rules.specs.Change as Change;
ghost use Rattle.rules.specs.Moments as Moments;
ghost use Rattle.rules.specs.Step as Step;
ghost use Rattle.rules.specs.Timers.{Timer};
ghost use Rattle.engine.specs.Engine as Engine;
ghost use Rattle.carried.specs.Pairs as Pairs;
ghost use Rattle.carried.specs.Pairs.{pairs_of};
ghost use Rattle.carried.specs.Records as Records;
ghost use Rattle.carried.specs.Timers as Timers;
ghost use Rattle.ssa.specs.Halted as Spec;
ghost use Rattle.ssa.specs.Path as Path;
ghost use Rattle.playing.specs.Stepping as Stepping;

use crate::{Halted, Onward, accept, until};
use carried::{records, renaming, state};
use engine::slots;
use index::marks;
use net::LentNet;
use playing::run::Standing;
use playing::{PathEnd, begin};
use refusals::Refusal;
use timers::queue;
use timers::queue::Queue;

// The first of 4, 12, 13, 11 and, for the recorded cells, 4 that a carried path meets, over a net of so many places. No test looks at its generator, its peak or
// the transitions of its timers. The path is lent, since it is 7 KB.
pub fn state_fault(
    places: usize,
    path: &Halted,
    instants: &[f64],
    table: &[f64],
) -> Result<(), Refusal>
    requires { places ≤ 32 }
    ensures { Record.meaning result ≡ Tests.first_of (Change.carried_tests 256 (not (Path.table_fits places (length instants.now) table.now))
        (Records.record_strange places (length instants.now) path.now.recorded table.now)
        (Spec.carried_from places (Spec.standing_of places path.now) instants.now table.now)) }
{
    let timers = &path.timers;
    if !state::state_fits(
        places,
        &path.counts,
        path.steps,
        path.limit,
        path.rounded,
        path.clock,
        &timers.ats,
        &timers.takens,
        timers.len,
    ) {
        return Err(Refusal::OutsideDomain);
    }
    if !accept::instants_fit(instants) {
        return Err(Refusal::BadInstants);
    }
    if !records::records_fit(instants, path.recorded, path.clock) {
        return Err(Refusal::BadInstants);
    }
    if !accept::limit_fits(path.limit) {
        return Err(Refusal::BadLimit);
    }
    let n = instants.len();
    if table.len() < places * n {
        return Err(Refusal::ShortTable);
    }
    if !records::cells_fit(table, places, n, path.recorded) {
        return Err(Refusal::OutsideDomain);
    }
    Ok(())
}

// Are the timers listed, and sent to delayed transitions of the accepted net whose fields are lent?
fn timers_fit<'a>(net: &LentNet, names: &'a [u64; 64], whos: &'a [usize; 256], n: usize) -> bool
    requires { let net = net_of net.now in (Record.fault net ≡ none) × (n ≤ 256) }
    ensures { let net = net_of net.now in (old : Net.Net) (ps : List Change.Pair) (ats : List Float) (takens : List ℕ) → length old.transitions ≤ 64
        → Change.list_strange old (Record.readable net) ps ≡ false → Pairs.Names ps names.now
        → result ≡ not (Tests.any (λ (x : Timer). Change.sent_wrong (Record.readable net) (Change.new_number ps x.who)) (Timers.timers_in ats whos.now takens n)) }
{
    let delayed = marks::timed_word(net);
    renaming::timers_fit(whos, n, names, delayed)
}

// The first of 20, 21 and 22 that a renaming list meets, from an accepted net to another; of the path it looks at the transitions of its timers alone.
pub fn list_fault(
    old: &LentNet,
    net: &LentNet,
    pairs: &[u64],
    timers: &Queue,
) -> Result<(), Refusal>
    requires { let net = net_of net.now in (Record.fault net ≡ none) × (old.now.transitions ≤ 64) × (timers.now.len ≤ 256) }
    ensures { let net = net_of net.now in (path : Rule.Carried)
        → path.now.timers ≡ Timers.timers_in timers.now.ats timers.now.whos timers.now.takens timers.now.len
        → Record.meaning result ≡ Tests.first_of (Change.renaming_tests (Record.readable (net_of old.now)) (Record.readable net) path (pairs_of pairs.now)) }
{
    if old.places != net.places {
        return Err(Refusal::UnequalPlaces);
    }
    if !renaming::list_fits(pairs, old.transitions, net.transitions) {
        return Err(Refusal::BadRenaming);
    }
    let names = renaming::names_of(pairs);
    if timers_fit(net, &names, &timers.whos, timers.len) {
        return Ok(());
    }
    Err(Refusal::BadTimer)
}

// The first test that a carrying call meets: those of the old net and of the new one, of the path's state, and of the renaming list.
pub fn carry_fault(
    old: &LentNet,
    net: &LentNet,
    pairs: &[u64],
    path: &Halted,
    instants: &[f64],
    table: &[f64],
) -> Result<(), Refusal>
    ensures { Record.meaning result ≡ Spec.carrying_fault old.now.places (net_of old.now) (net_of net.now) (pairs_of pairs.now)
        (Spec.standing_of old.now.places path.now) instants.now table.now }
{
    net::test_net(old)?;
    net::test_net(net)?;
    state_fault(old.places, path, instants, table)?;
    list_fault(old, net, pairs, &path.timers)
}

// The weights that so many timers took.
fn taken(takens: &[u64; 256], n: usize) -> u64
    requires { (n ≤ 256) × ((ats : List Float) (whos : List ℕ) → Stepping.Light (Timers.timers_in ats whos takens.now n)) }
    ensures { (result ≤ 4_096_000_000) × ((ats : List Float) (whos : List ℕ) → result ≡ Moments.taken_by_timers (Timers.timers_in ats whos takens.now n)) }
{
    let mut total: u64 = 0;
    for i in 0..n {
        total += takens[i];
    }
    total
}

// The path of a carrying call that no test turns down, over the new net, whose fields are lent.
pub fn accepted_carry(
    net: &LentNet,
    pairs: &[u64],
    path: Halted,
    instants: &[f64],
    named: u64,
    table: &mut [f64],
) -> Onward
    requires { let net = net_of net.now in (Record.fault net ≡ none)
        × Spec.Passes net.places (Record.readable net) (pairs_of pairs.now) path instants.now table.old }
    ensures { let net = net_of net.now in Spec.call_of net.places result table.new ≡ Spec.played net.places (length instants.now) path.recorded (Spec.standing_of net.places path)
        table.old (Rule.play_on 256 (Record.readable net) (Change.renamed (pairs_of pairs.now)
        (Spec.carried_from net.places (Spec.standing_of net.places path) instants.now table.old)) named) }
{
    let names = renaming::names_of(pairs);
    let q = path.timers;
    let renamed = Queue {
        ats: q.ats,
        whos: renaming::new_numbers(&q.whos, q.len, &names),
        takens: q.takens,
        len: q.len,
    };
    let mut ats = [0.0; 256];
    let mut owners = [0u64; 512];
    let ring = queue::hand_in(&mut ats, &mut owners, renamed);
    let mut counts = slots::first_counts(net.places, &path.counts);
    let rng = path.generator;
    let s = Standing {
        clock: path.clock,
        timers: ring,
        next: path.recorded,
        tokens: begin::sum(&counts, net.places) + taken(&q.takens, q.len),
        peak: path.peak,
        rng: rng,
    };
    let left = path.limit - path.steps;
    let w = until::resume(
        net,
        &mut counts,
        &mut ats,
        &mut owners,
        instants,
        named < left,
        named.min(left),
        s,
        table,
    );
    let end = w.end;
    if let PathEnd::Refused(c) = end {
        return until::turned_down(c, path);
    }
    until::handed(
        w,
        &counts,
        &ats,
        &owners,
        path.steps,
        path.limit,
        path.rounded,
        instants.len(),
    )
}
