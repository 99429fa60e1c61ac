// Which transitions are enabled, tested again where a count may have opened or shut them.
ghost use Rattle.std.specs.Prelude.{◌≡◌, true, ◌&&◌, not, ℕ, ◌<◌, eqb, length, get_or};
ghost use Rattle.std.specs.Float.{nan};
ghost use Rattle.words.specs.Bits.{bit};
ghost use Rattle.net.specs.Net as Reader;
ghost use Rattle.net.specs.Readable as Record;
ghost use Rattle.net.specs.Record.{net_of};
ghost use Rattle.net.specs.declared.Net.{Net as NetRecord};
ghost use Rattle.rules.specs.Enabled as Enabled;
ghost use Rattle.rules.specs.Index.{Reworked};
ghost use Rattle.rules.specs.Moves as Moves;
ghost use Rattle.engine.specs.Engine as Engine;
ghost use Rattle.engine.specs.Limits as Limits;

use engine::{marking, sets};
use net::LentNet;

// Puts 0 at j where it is not on.
fn shut(on: bool, j: usize, props: &mut [f64; 64])
    requires { (j < 64) × (length props.old ≡ 64) }
    ensures { (length props.new ≡ 64)
        × ((i : ℕ) → get_or props.new i nan ≡ Reader.pick (eqb i j && not on) Reader.zero64 (get_or props.old i nan)) }
{
    if !on {
        props[j] = 0.0;
    }
}

// Tests the transitions in a word: in the answer are those that are enabled, and for the others what is in `able`. The propensity of one that is not enabled is 0,
// and all others are as handed in.
pub fn retest<'a>(
    net: &LentNet,
    limit: &'a [u64; 1024],
    counts: &[u64; 32],
    word: u64,
    able: u64,
    props: &mut [f64; 64],
) -> u64
    requires { let net = net_of net.now in Engine.Tidy net × Limits.Limits net limit.now × Engine.Counts counts.now
        × ((j : ℕ) → bit word j ≡ true → j < net.transitions) × (length props.old ≡ 64) }
    ensures { let net = net_of net.now in ((j : ℕ) → bit result j ≡ Reader.pick (bit word j)
        (Enabled.enabled (Record.readable net) (Engine.marking net.places counts.now) (Moves.transition (Record.readable net) j)) (bit able j))
        × Reworked (λ (j : ℕ). bit word j && not (Enabled.enabled (Record.readable net) (Engine.marking net.places counts.now) (Moves.transition (Record.readable net) j)))
        (λ (j : ℕ). Reader.zero64) props.old props.new }
{
    let mut left = word;
    let mut found = sets::without(able, word);
    while left != 0 {
        let j = u64::trailing_zeros(left) as usize;
        let on = marking::enabled(net, limit, counts, j);
        shut(on, j, props);
        found = sets::joined(found, j, on);
        left = left & (left - 1);
    }
    found
}
