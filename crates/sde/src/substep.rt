// One substep: each transition's noise goes into the state at once, and the drift after all of them.
ghost use Rattle.std.specs.Prelude.{◌≡◌, ◌*◌, ◌+◌, ◌<◌, ◌≤◌, length, get_or};
ghost use Rattle.std.specs.Float.{binary64, nan};
ghost use Rattle.std.specs.Float.Ieee.{add};
ghost use Rattle.net.specs.Readable as Record;
ghost use Rattle.net.specs.Record.{net_of};
ghost use Rattle.sde.specs.Diffusion as Diffusion;
ghost use Rattle.sde.specs.Arrays as Arrays;

use crate::propensity;
use crate::run::Run;
use averages::moments;
use normals::GaussianSampler;
use refusals::Refusal;

// The value and the drift of each place, and the sampler.
#[derive(Clone, Copy)]
pub struct State {
    pub x: [f64; 32],
    pub drift: [f64; 32],
    pub sampler: GaussianSampler,
}

// The noise and the drift of transition j of propensity a, at the places that it changes. No `for`: the table of skips says which place is next.
fn spread(run: &Run, j: usize, a: f64, noise: f64, state: &mut State)
    requires { j < run.now.net.transitions }
    ensures { let places = run.now.net.places in Arrays.Mapped places (λ p. Diffusion.noise_by (get_or run.now.changes.now (32 * j + p) nan) noise) state.old.x state.new.x
        × Arrays.Mapped places (λ p. Diffusion.drift_by (get_or run.now.changes.now (32 * j + p) nan) a run.now.dt) state.old.drift state.new.drift
        × (state.new.sampler ≡ state.old.sampler) }
{
    let changes = run.changes;
    let skips = run.skips;
    let places = run.net.places;
    let dt = run.dt;
    let from = 32 * j;
    let first = 33 * j;
    let mut p = skips[first];
    while p < places {
        let d = changes[from + p];
        state.x[p] += d * noise;
        state.drift[p] += d * a * dt;
        p = skips[first + p + 1];
    }
}

// Transition j: its noise and its drift, with one draw; nothing, and no draw, where its propensity is 0.
fn push(run: &Run, j: usize, state: &mut State) -> Result<(), Refusal>
    requires { j < run.now.net.transitions }
    ensures { let net = net_of run.now.net in Arrays.answered result (Arrays.going_of net.places state.new)
        ≡ Diffusion.pushed run.now.dt (Record.transition net j) (Arrays.going_of net.places state.old) }
{
    let a = propensity::propensity(run, &state.x, j);
    if a != 0.0 {
        let z = normals::next_normal(&mut state.sampler)?;
        let noise = root::sqrt(a) * run.root * z;
        spread(run, j, a, noise, state);
    }
    Ok(())
}

// All transitions, in their order.
fn push_all(run: &Run, state: &mut State) -> Result<(), Refusal>
    ensures { let net = net_of run.now.net in Arrays.answered result (Arrays.going_of net.places state.new)
        ≡ Diffusion.pushed_all run.now.dt (Record.transitions_from net 0 net.transitions) (Arrays.going_of net.places state.old) }
{
    for j in 0..run.net.transitions {
        push(run, j, state)?;
    }
    Ok(())
}

// "Negative states set to 0."
fn above_zero(v: f64) -> f64
    ensures { result ≡ Diffusion.above_zero v }
{
    if v < 0.0 { 0.0 } else { v }
}

// Adds the drift to the state.
fn add_drift(places: usize, drift: &[f64; 32], x: &mut [f64; 32])
    requires { places ≤ 32 }
    ensures { Arrays.Mapped places (λ p v. Diffusion.above_zero (add binary64 v (get_or drift.now p nan))) x.old x.new }
{
    for p in 0..places {
        x[p] = above_zero(x[p] + drift[p]);
    }
}

// One substep.
fn substep(run: &Run, state: &mut State) -> Result<(), Refusal>
    ensures { let net = net_of run.now.net in Arrays.answered result (Arrays.state_of net.places state.new)
        ≡ Diffusion.substep (Record.readable net) run.now.dt (Arrays.state_of net.places state.old) }
{
    moments::clear(run.net.places, &mut state.drift);
    push_all(run, state)?;
    add_drift(run.net.places, &state.drift, &mut state.x);
    Ok(())
}

const SUBSTEPS: u64 = 20;

// An interval: 20 substeps, where dt is above 0.
pub fn over_interval(run: &Run, state: &mut State) -> Result<(), Refusal>
    ensures { let net = net_of run.now.net in Arrays.answered result (Arrays.state_of net.places state.new)
        ≡ Diffusion.over_interval (Record.readable net) run.now.dt (Arrays.state_of net.places state.old) }
{
    if 0.0 < run.dt {
        for _i in 0..SUBSTEPS {
            substep(run, state)?;
        }
    }
    Ok(())
}
