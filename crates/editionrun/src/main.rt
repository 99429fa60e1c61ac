// Halts the first path of a net text, shows where it stands, and carries it to another edition of the net.
//   editionrun STEPS <NET                        where the path stands after so many steps
//   editionrun STEPS PAIRS LENGTH <OLD-then-NEW  the same, and then carried by the renaming list PAIRS, as 3:0,5:1, or - where it has no pair, and played to its
//                                                end. The first LENGTH bytes are the old net's text, the rest the new one's
// The path is drawn from the old text's run line, over its samples up to its horizon; the new text's run line is read and not used. The first line is
// (halted STEPS SETTLED PEAK ROUNDED), or (path END STEPS SETTLED PEAK ROUNDED) where the path ends before, END being quiet, spent or reached. Where it stands is
// (clock BITS), (counts …) and for each running timer, the first to leave first, (timer TRANSITION BITS TAKEN). A path that was carried is told by its line
// (path …) and for each place by (place NUMBER …), its counts at the instants; one that ends before is not carried, and with PAIRS its line stands alone. What is
// turned down is (refused NUMBER LINE), with line 0 where it is the run line, the path or the change: as the first line it is said of the old text and its path,
// behind where the path stands of the new text and the change. Arguments that are missing, too long or of the wrong form, and an input that cannot be read, are
// spoken of on standard error, and nothing else is.
#![tactic(auto)]

mod list;
mod shown;

ghost use Rattle.std.specs.Prelude.{◌≡◌, ◌≤◌, length};

use averages::request;
use net::Net;
use net_io::arguments::{is_given, number_argument};
use net_io::{read_input, say, write_refused};
use net_text::RunLine;
use rng::Xoshiro256;
use ssa::{Halted, PathEnd};
use std::env::Env;

// The most steps of a path.
const MOST_STEPS: u64 = 1_000_000;

// After how many steps the path is halted; and where it is to be carried, the renaming list. The new net's text is empty where it is not.
#[derive(Drop)]
struct Asked<'a> {
    steps: u64,
    pairs: Option<&'a [u64]>,
    new: &'a [u8],
}

// Carries a halted path to the new net and plays it to its end: no path is halted after the most steps.
fn change(
    rt: &HostRuntime,
    old: &Net,
    new: &Net,
    pairs: &[u64],
    path: Halted,
    instants: &[f64],
    table: &mut [f64],
) {
    let r = ssa::carry(
        &old.lent(),
        &new.lent(),
        pairs,
        path,
        instants,
        MOST_STEPS,
        table,
    );
    shown::write_path(rt, &r);
    match r.end {
        PathEnd::Refused(_) => {}
        _ => shown::write_rows(rt, old.places, instants.len(), table),
    }
}

// The path from the seed, halted after so many steps; carried to the net of the new text if that is asked for.
fn halt(rt: &HostRuntime, net: &Net, seed: u64, instants: &[f64], asked: &Asked) {
    let mut table = [0.0f64; 2048];
    let generator = Xoshiro256::new(request::seed_of(seed, 0));
    let r = ssa::path_until(
        &net.lent(),
        generator,
        instants,
        MOST_STEPS,
        asked.steps,
        &mut table,
    );
    shown::write_path(rt, &r);
    match (r.end, asked.pairs) {
        (PathEnd::Refused(_), _) => {}
        (PathEnd::Halted, Some(pairs)) => {
            shown::write_state(rt, net.places, &r.state);
            match net_text::read_net(asked.new) {
                Ok(read) => change(rt, net, &read.net, pairs, r.state, instants, &mut table),
                Err(down) => write_refused(rt, down.refusal.number(), down.line),
            }
        }
        (_, None) => shown::write_state(rt, net.places, &r.state),
        (_, Some(_)) => {}
    }
}

// The grid of the run line, of at most 1,024 samples.
fn halt_on_grid(rt: &HostRuntime, net: &Net, samples: u64, seed: u64, horizon: f64, asked: &Asked)
    requires { samples ≤ 1_024 }
{
    let mut grid = [0.0f64; 1024];
    let few = samples as u32;
    request::fill_grid(few, request::interval(few, horizon), &mut grid);
    halt(rt, net, seed, &grid[..samples as usize], asked);
}

fn run(rt: &HostRuntime, net: &Net, line: RunLine, asked: &Asked) {
    let horizon = net_text::float_of(line.horizon);
    match request::request_fault(line.samples, line.realizations, line.seed, horizon) {
        Err(c) => write_refused(rt, c.number(), 0),
        Ok(()) => {
            if line.samples <= 1_024 {
                halt_on_grid(rt, net, line.samples, line.seed, horizon, asked);
            }
        }
    }
}

fn play(rt: &HostRuntime, old: &[u8], asked: &Asked) {
    match net_text::read_net(old) {
        Ok(read) => run(rt, &read.net, read.run, asked),
        Err(down) => write_refused(rt, down.refusal.number(), down.line),
    }
}

// Where the second text begins: after so many bytes, or behind all n where there are fewer.
fn cut(bytes: u64, n: usize) -> usize
    ensures { result ≤ n }
{
    if bytes < n as u64 {
        return bytes as usize;
    }
    n
}

fn play_both(rt: &HostRuntime, texts: &[u8], bytes: u64, steps: u64, pairs: Option<&[u64]>) {
    let at = cut(bytes, texts.len());
    let asked = Asked {
        steps,
        pairs,
        new: &texts[at..],
    };
    play(rt, &texts[..at], &asked);
}

// Two net texts and one byte more: enough to know that the second has too many.
fn texts_room() -> [u8; 16385]
    ensures { 16385 ≡ length result }
{
    [0; 16385]
}

fn read_and_play(rt: &HostRuntime, bytes: u64, steps: u64, pairs: Option<&[u64]>) {
    let mut texts = texts_room();
    match read_input(rt, &mut texts) {
        Ok(n) => play_both(rt, &texts[..n], bytes, steps, pairs),
        Err(_) => say(rt, b"editionrun: standard input cannot be read\n"),
    }
}

fn usage(rt: &HostRuntime) {
    say(
        rt,
        b"usage: editionrun STEPS <NET, or editionrun STEPS PAIRS LENGTH <OLD-then-NEW, PAIRS as 3:0,5:1 or -, of at most 1,024 bytes\n",
    );
}

fn carry_on(rt: &HostRuntime, steps: u64) {
    let mut list = [0u8; 1024];
    let Ok(n) = rt.arg(2, &mut list) else {
        usage(rt);
        return;
    };
    let mut words = [0u64; 130];
    match (
        list::list_of(&list[..n], &mut words),
        number_argument(rt, 3),
    ) {
        (Some(k), Some(bytes)) if k <= 130 => { read_and_play(rt, bytes, steps, Some(&words[..k])) }
        _ => usage(rt),
    }
}

fn main(rt: HostRuntime) {
    let Some(steps) = number_argument(&rt, 1) else {
        usage(&rt);
        return;
    };
    if !is_given(&rt, 2) {
        read_and_play(&rt, u64::MAX, steps, None);
    } else if is_given(&rt, 3) && !is_given(&rt, 4) {
        carry_on(&rt, steps);
    } else {
        usage(&rt);
    }
}
