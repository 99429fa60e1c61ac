// Plays the first path of a net text and tells of it. Standard input has a net text; the path is drawn from the run line's seed, over its samples up to its
// horizon. One line is written: (path END STEPS SETTLED PEAK ROUNDED), where END is quiet, spent or reached, SETTLED are the instants settled and ROUNDED the
// steps whose a0 adds a rounded propensity; or (refused NUMBER LINE), with line 0 where the run line or the path is turned down. That the input cannot be read
// is said on standard error, and nothing else is.
#![tactic(auto)]

ghost use Rattle.std.specs.Prelude.{◌≤◌};

use averages::request;
use net::Net;
use net_io::{read_input, say, text_room, write_refused};
use net_text::RunLine;
use rng::Xoshiro256;
use ssa::{PathAnswer, PathEnd};

// The most steps of a path.
const MOST_STEPS: u64 = 1_000_000;

// The line of a path that was not turned down. That it cannot be written goes unsaid.
fn write_path(rt: &HostRuntime, end: &str, r: PathAnswer) {
    let _ = println!(rt;
        "(path {end} {} {} {} {})",
        r.steps, r.settled, r.peak, r.rounded
    );
}

fn write_answer(rt: &HostRuntime, r: PathAnswer) {
    match r.end {
        PathEnd::Quiet => write_path(rt, "quiet", r),
        PathEnd::Spent => write_path(rt, "spent", r),
        PathEnd::Reached => write_path(rt, "reached", r),
        PathEnd::Halted => write_path(rt, "halted", r),
        PathEnd::Refused(c) => write_refused(rt, c.number(), 0),
    }
}

// The path from the seed, over the grid of the run line, of at most 1,024 samples.
fn play(rt: &HostRuntime, net: &Net, samples: u64, seed: u64, horizon: f64)
    requires { samples ≤ 1_024 }
{
    let mut grid = [0.0f64; 1024];
    let few = samples as u32;
    request::fill_grid(few, request::interval(few, horizon), &mut grid);
    let mut table = [0.0f64; 2048];
    let generator = Xoshiro256::new(request::seed_of(seed, 0));
    let instants = &grid[..samples as usize];
    write_answer(
        rt,
        ssa::path(&net.lent(), generator, instants, MOST_STEPS, &mut table),
    );
}

fn run(rt: &HostRuntime, net: &Net, asked: RunLine) {
    let horizon = net_text::float_of(asked.horizon);
    match request::request_fault(asked.samples, asked.realizations, asked.seed, horizon) {
        Err(c) => write_refused(rt, c.number(), 0),
        Ok(()) => {
            if asked.samples <= 1_024 {
                play(rt, net, asked.samples, asked.seed, horizon);
            }
        }
    }
}

fn tell(rt: &HostRuntime, text: &[u8]) {
    match net_text::read_net(text) {
        Ok(read) => run(rt, &read.net, read.run),
        Err(down) => write_refused(rt, down.refusal.number(), down.line),
    }
}

fn main(rt: HostRuntime) {
    let mut text = text_room();
    match read_input(&rt, &mut text) {
        Ok(n) => tell(&rt, &text[..n]),
        Err(_) => say(&rt, b"tellrun: standard input cannot be read\n"),
    }
}
