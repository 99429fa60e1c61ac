// The generator: its words are lent, and left as they are after the draws.
ghost use Rattle.std.specs.Prelude.{◌≡◌, length};
ghost use Rattle.rng.specs.State.{words};
ghost use Rattle.rng.specs.Splitmix.{seeded};
ghost use Rattle.rng.specs.Xoshiro as Xoshiro;
ghost use Rattle.rng.specs.Laws.{step_back};
ghost use Rattle.c_face.specs.Drawn.{drawn, after};

use rng::Xoshiro256;

#[unsafe(no_mangle)]
pub extern "C" fn cild_splitmix64(seed: u64, state: &mut [u64; 4])
    ensures { words state.new ≡ seeded seed }
{
    *state = rng::splitmix64(seed);
}

#[unsafe(no_mangle)]
pub extern "C" fn cild_next_u64(state: &mut [u64; 4]) -> u64
    ensures { (result ≡ Xoshiro.output (words state.old)) × (words state.new ≡ Xoshiro.step (words state.old)) }
{
    let drawn = Xoshiro256::from_state(*state).next_u64();
    let rng = drawn.rng;
    *state = rng.state();
    drawn.value
}

#[unsafe(no_mangle)]
pub extern "C" fn cild_uniform(state: &mut [u64; 4]) -> f64
    ensures { (result ≡ Xoshiro.uniform (words state.old)) × (words state.new ≡ Xoshiro.step (words state.old)) }
{
    let drawn = Xoshiro256::from_state(*state).uniform();
    let rng = drawn.rng;
    *state = rng.state();
    drawn.value
}

// The state before its last step.
#[unsafe(no_mangle)]
pub extern "C" fn cild_step_back(state: &mut [u64; 4])
    ensures { words state.new ≡ step_back (words state.old) }
{
    let rng = Xoshiro256::from_state(*state).step_back();
    *state = rng.state();
}

// As many outputs as out has room for.
#[unsafe(no_mangle)]
pub extern "C" fn cild_outputs(state: &mut [u64; 4], out: &mut [u64])
    ensures out_after { out.new ≡ drawn Xoshiro.output (length out.old) (words state.old) }
    ensures state_after { words state.new ≡ after (length out.old) (words state.old) }
{
    let mut rng = Xoshiro256::from_state(*state);
    for x in out.iter_mut() {
        let drawn = rng.next_u64();
        *x = drawn.value;
        rng = drawn.rng;
    }
    *state = rng.state();
}

// As many uniform numbers as out has room for.
#[unsafe(no_mangle)]
pub extern "C" fn cild_uniforms(state: &mut [u64; 4], out: &mut [f64])
    ensures out_after { out.new ≡ drawn Xoshiro.uniform (length out.old) (words state.old) }
    ensures state_after { words state.new ≡ after (length out.old) (words state.old) }
{
    let mut rng = Xoshiro256::from_state(*state);
    for x in out.iter_mut() {
        let drawn = rng.uniform();
        *x = drawn.value;
        rng = drawn.rng;
    }
    *state = rng.state();
}
