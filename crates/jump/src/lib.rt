// The jump of a race: how long until it, whether it or a completion comes first, and which transition it fires.
#![tactic(auto)]

pub mod sums;

ghost use Rattle.std.specs.Prelude.{◌≡◌, List};
ghost use Rattle.rng.specs.State as Rng;
ghost use Rattle.rules.specs.Step as Step;
ghost use Rattle.rules.specs.Timers.{Timer};
ghost use Rattle.jump.specs.Answers as Answers;

use rng::Xoshiro256;

// Nothing left, a race after a waiting time, or a completion at a time.
#[derive(Clone, Copy)]
pub enum Next {
    Nothing,
    Race(f64),
    Completion(f64),
}

// A waiting time, with the generator after its draw.
#[derive(Clone, Copy)]
pub struct Wait {
    pub dt: f64,
    pub rng: Xoshiro256,
}

// The time until a race of total 1 would end, by what the generator draws next. It goes by the generator alone, so that a step works it out for the next one
// before it looks for its own event: while a processor waits for that, the logarithm is under way.
pub fn unit_wait(rng: Xoshiro256) -> f64
    ensures { result ≡ Answers.unit_wait (Rng.words rng.s) }
{
    let d = rng.next_u64();
    -portable_log::plog_of_rest(d.value)
}

// The time until the race would end, from that at a total of 1; infinite, and nothing drawn, where nothing races.
pub fn waiting(a0: f64, unit: f64, rng: Xoshiro256) -> Wait
    requires { unit ≡ Answers.unit_wait (Rng.words rng.s) }
    ensures { (result.dt ≡ Step.waiting a0 (Rng.words rng.s)) × (Rng.words result.rng.s ≡ Step.drawn_for a0 (Rng.words rng.s)) }
{
    if 0.0 < a0 {
        let d = rng.next_u64();
        let g = d.rng;
        return Wait {
            dt: unit / a0,
            rng: g,
        };
    }
    Wait {
        dt: f64::from_bits(0x7FF0_0000_0000_0000),
        rng: rng,
    }
}

// Nothing left, the race, or the first completion where it comes no later. So many timers run, and the first of them completes at `at`, which is looked at
// only where one runs: the answer is right for every list of timers of which that is true.
pub fn next_event(a0: f64, t: f64, dt: f64, running: usize, at: f64) -> Next
    ensures { (timers : List Timer) → Answers.Told timers running at → Answers.next_of result ≡ Step.next a0 t dt timers }
{
    if running == 0 {
        if a0 <= 0.0 {
            return Next::Nothing;
        }
        return Next::Race(dt);
    }
    if at <= t + dt {
        return Next::Completion(at);
    }
    Next::Race(dt)
}
