// What a path call tests after its net, and the path of a call that is accepted.
ghost use Rattle.std.specs.Prelude.{◌≡◌, true, ◌&&◌, List, ℕ, ◌*◌, ◌^◌, ◌<◌, ◌≤◌, length, get_or, Float};
ghost use Rattle.std.proofs.Math.Option.{none};
ghost use Rattle.std.specs.Float.{binary64};
ghost use Rattle.std.specs.Float.Ieee.{of_bits, le};
ghost use Rattle.net.specs.Readable as Record;
ghost use Rattle.net.specs.Record.{net_of};
ghost use Rattle.net.specs.declared.Net.{Net as NetRecord};
ghost use Rattle.rng.specs.State as Random;
ghost use Rattle.rules.specs.Shown as Shown;
ghost use Rattle.engine.specs.Engine as Engine;
ghost use Rattle.ssa.specs.Path as Path;
ghost use Rattle.refusals.specs.Number.{number_of};

use crate::{PathAnswer, start};
use engine::slots::{self, Slots};
use net::LentNet;
use playing::{PathEnd, tables};
use refusals::Refusal;
use rng::Xoshiro256;

// The bounds of document 01, "Path".
const MOST_INSTANTS: usize = 1024;

const MOST_STEPS: u64 = 1_000_000;

// 2^31
const MOST_TIME: f64 = 2147483648.0;

// Is x neither below the instant before it nor above 2^31? A NaN fails.
fn instant_fits(low: f64, x: f64) -> bool
    ensures { result ≡ (le low x && le x (of_bits binary64 0x41E0_0000_0000_0000)) }
{
    low <= x && x <= MOST_TIME
}

// Do the instants pass 12: 1 to 1,024 of them, from 0 to 2^31, none below the one before it?
pub fn instants_fit(instants: &[f64]) -> bool
    ensures { result ≡ Shown.instants_fit instants.now }
{
    let n = instants.len();
    if n == 0 {
        return false;
    }
    if MOST_INSTANTS < n {
        return false;
    }
    let mut low = 0.0;
    for i in 0..n {
        let x = instants[i];
        if !instant_fits(low, x) {
            return false;
        }
        low = x;
    }
    true
}

// Does the step limit pass 13?
pub fn limit_fits(limit: u64) -> bool
    ensures { result ≡ Shown.limit_fits limit }
{
    1 <= limit && limit <= MOST_STEPS
}

// The first test that a path's call meets: those of its net, then 12, 13 and 11.
pub fn call_fault(net: &LentNet, instants: &[f64], limit: u64, table: &[f64]) -> Result<(), Refusal>
    ensures { Record.meaning result ≡ Path.call_fault (net_of net.now) instants.now limit table.now }
{
    net::test_net(net)?;
    if !instants_fit(instants) {
        return Err(Refusal::BadInstants);
    }
    if !limit_fits(limit) {
        return Err(Refusal::BadLimit);
    }
    if table.len() < net.places * instants.len() {
        return Err(Refusal::ShortTable);
    }
    Ok(())
}

// The answer of a call that is turned down by c.
pub fn turned_down(c: Refusal, generator: Xoshiro256) -> PathAnswer
    ensures { (table : List Float) → Path.call_of result table ≡ Path.turned_down (number_of c) (Random.words generator.s) table }
{
    PathAnswer {
        end: PathEnd::Refused(c),
        steps: 0,
        settled: 0,
        peak: 0,
        rounded: 0,
        generator: generator,
    }
}

// A path of the tidy net whose fields are lent: the tables that a call makes once, and the run.
fn lent_path(
    net: &LentNet,
    instants: &[f64],
    steps: u64,
    generator: Xoshiro256,
    table: &mut [f64],
) -> PathAnswer
    requires { let net = net_of net.now in Engine.Tidy net × ((p : ℕ) → p < net.places → get_or net.initial p 0 ≤ 2 ^ 53) × (Shown.instants_fit instants.now ≡ true)
        × (net.places * length instants.now ≤ length table.old) }
    ensures { let net = net_of net.now in Path.call_of result table.new ≡ Path.played net.places (length instants.now) (Random.words generator.s)
        table.old (Shown.worked (Record.readable net) (Random.words generator.s) instants.now steps) }
{
    let mut tables = kept::tables::empty();
    tables::fill_tables(net, &mut tables);
    let mut counts = slots::first_counts(net.places, net.initial);
    start::play(net, &tables, &mut counts, instants, steps, generator, table)
}

// The path of a call that no test turns down, over the net whose fields are lent. Of these only the slots in use are copied.
pub fn accepted_path(
    net: &LentNet,
    generator: Xoshiro256,
    instants: &[f64],
    limit: u64,
    table: &mut [f64],
) -> PathAnswer
    requires { let net = net_of net.now in (Record.fault net ≡ none) × (Shown.instants_fit instants.now ≡ true) × (net.places * length instants.now ≤ length table.old) }
    ensures { let net = net_of net.now in Path.call_of result table.new ≡ Path.played net.places (length instants.now) (Random.words generator.s) table.old
        (Shown.worked (Record.readable net) (Random.words generator.s) instants.now limit) }
{
    let mut slots = Slots::blank();
    slots.fill(net);
    // Lent anew, for no longer than the slots.
    let fields = *net;
    lent_path(&slots.of(&fields), instants, limit, generator, table)
}
