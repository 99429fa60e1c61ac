// A path: the state at each instant, written into the cells of the table.
ghost use Rattle.std.specs.Prelude.{◌≡◌, ◌∷◌, [], ℕ, ◌-◌, ◌*◌, ◌+◌, ◌^◌, ◌<◌, ◌≤◌, length, get_or};
ghost use Rattle.std.specs.Float.{nan};
ghost use Rattle.std.proofs.Math.ListN as ListN;
ghost use Rattle.net.specs.Readable as Record;
ghost use Rattle.net.specs.Record.{net_of};
ghost use Rattle.rules.specs.Propensity.{float};
ghost use Rattle.sde.specs.Diffusion as Diffusion;
ghost use Rattle.sde.specs.Arrays as Arrays;

use crate::run::Run;
use crate::substep;
use crate::substep::State;
use normals::GaussianSampler;
use refusals::Refusal;

// Writes the state into the cells of instant i of n.
fn show(places: usize, n: usize, i: usize, x: &[f64; 32], table: &mut [f64])
    requires { (places ≤ 32) × (i < n) × (n ≤ 1024) × (places * n ≤ length table.old) }
    ensures { Arrays.Column n i places x.now table.old table.new }
{
    for p in 0..places {
        table[p * n + i] = x[p];
    }
}

// The initial counts, as floats.
fn first_state(places: usize, initial: &[u64; 32], x: &mut [f64; 32])
    requires { (places ≤ 32) × ((p : ℕ) → p < places → get_or initial.now p 0 ≤ 2 ^ 53) }
    ensures { Arrays.Mapped places (λ p v. float (get_or initial.now p 0)) x.old x.new }
{
    for p in 0..places {
        x[p] = initial[p] as i64 as f64;
    }
}

// The instants from number 1 on, an interval after the other. Where a draw was refused the answer's cells are of no use.
fn walk_on(run: &Run, state: &mut State, table: &mut [f64]) -> Result<(), Refusal>
    requires { let places = run.now.net.places in (places * run.now.n ≤ length table.old)
        × ((p : ℕ) → p < places → get_or table.old (p * run.now.n + 0) nan ≡ get_or state.old.x p nan) }
    ensures { let net = net_of run.now.net in (Arrays.answered result (ListN.take (net.places * run.now.n) table.new)
        ≡ Diffusion.cells_of net.places (Arrays.preceded (ListN.take net.places state.old.x ∷ []) (Diffusion.further (run.now.n - 1) (Diffusion.over_interval (Record.readable net) run.now.dt) (Arrays.state_of net.places state.old))))
        × Arrays.Beyond (net.places * run.now.n) table.old table.new }
{
    for i in 1..run.n {
        substep::over_interval(run, state)?;
        show(run.net.places, run.n, i, &state.x, table);
    }
    Ok(())
}

// The path of a seed.
pub fn walk(run: &Run, seed: u64, table: &mut [f64]) -> Result<(), Refusal>
    requires { run.now.net.places * run.now.n ≤ length table.old }
    ensures { let net = net_of run.now.net in (Arrays.answered result (ListN.take (net.places * run.now.n) table.new)
        ≡ Diffusion.cells_of net.places (Diffusion.walked (Record.readable net) run.now.dt run.now.n seed))
        × Arrays.Beyond (net.places * run.now.n) table.old table.new }
{
    let mut state = State {
        x: [0.0; 32],
        drift: [0.0; 32],
        sampler: GaussianSampler::new(seed),
    };
    first_state(run.net.places, run.net.initial, &mut state.x);
    show(run.net.places, run.n, 0, &state.x, table);
    walk_on(run, &mut state, table)
}
