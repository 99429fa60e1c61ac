// Which propensities are rounded, looked at again where one was worked out.
ghost use Rattle.std.specs.Prelude.{◌≡◌, true, ℕ, ◌<◌, get_or};
ghost use Rattle.std.specs.Float.{nan};
ghost use Rattle.words.specs.Bits.{bit};
ghost use Rattle.net.specs.Net as Reader;
ghost use Rattle.net.specs.Readable as Record;
ghost use Rattle.net.specs.Record.{net_of};
ghost use Rattle.net.specs.declared.Net.{Net as NetRecord};
ghost use Rattle.rules.specs.Exact as Exact;
ghost use Rattle.rules.specs.Moves as Moves;
ghost use Rattle.rules.specs.Propensity as Propensity;
ghost use Rattle.engine.specs.Engine as Engine;

use engine::{rounding, sets};
use net::LentNet;

// Marks the transitions in a word: in the answer are those whose propensity, in `props`, is rounded, and for the others what is in `marks`.
pub fn remark(net: &LentNet, counts: &[u64; 32], word: u64, marks: u64, props: &[f64; 64]) -> u64
    requires { let net = net_of net.now in Engine.Tidy net × Engine.Counts counts.now × ((j : ℕ) → bit word j ≡ true → j < net.transitions)
        × ((j : ℕ) → bit word j ≡ true → get_or props.now j nan ≡ Propensity.propensity (Record.readable net) (Engine.marking net.places counts.now) (Moves.transition (Record.readable net) j)) }
    ensures { let net = net_of net.now in (j : ℕ) → bit result j ≡ Reader.pick (bit word j)
        (Exact.rounded (Record.readable net) (Engine.marking net.places counts.now) (Moves.transition (Record.readable net) j)) (bit marks j) }
{
    let mut left = word;
    let mut found = sets::without(marks, word);
    while left != 0 {
        let j = u64::trailing_zeros(left) as usize;
        let on = rounding::rounded(net, counts, j, props[j]);
        found = sets::joined(found, j, on);
        left = left & (left - 1);
    }
    found
}
