// The soak load's text, its answer told in numbers.
ghost use Rattle.std.specs.Prelude.{◌≡◌};
ghost use Rattle.soak.specs.Soak as Soak;
ghost use Rattle.c_face.specs.Soaked as Soaked;

use refusals::Refusal;

// The refusal's number, or 0; the text's length.
fn soak_numbers(answer: Result<usize, Refusal>) -> [u64; 2]
    ensures { result ≡ Soaked.told_of (Soak.told answer) }
{
    match answer {
        Ok(n) => [0, n as u64],
        Err(c) => [c.number(), 0],
    }
}

// The text at the front of the buffer that is lent.
#[unsafe(no_mangle)]
pub extern "C" fn cild_soak(
    seed: u64,
    places: u64,
    transitions: u64,
    out: &mut [u8],
    told: &mut [u64; 2],
)
    ensures { Soaked.Left (Soak.called out.old seed places transitions) told.new out.new }
{
    let answer = soak::soak(seed, places, transitions, out);
    *told = soak_numbers(answer);
}
