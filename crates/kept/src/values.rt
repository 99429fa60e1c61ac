// What the ways of a transition's kinetic takes multiply to, on top of its rate: its propensity wherever it is enabled.
ghost use Rattle.std.specs.Prelude.{◌≡◌, true, ℕ, ◌+◌, ◌*◌, ◌<◌, ◌≤◌, length, get_or};
ghost use Rattle.std.specs.Float.{binary64};
ghost use Rattle.std.specs.Float.Ieee.{mul};
ghost use Rattle.words.specs.Bits.{bit};
ghost use Rattle.net.specs.Net as Reader;
ghost use Rattle.net.specs.Readable as Record;
ghost use Rattle.net.specs.Record.{net_of};
ghost use Rattle.net.specs.declared.Net.{Net as NetRecord};
ghost use Rattle.rules.specs.Index.{Reworked};
ghost use Rattle.rules.specs.Moves as Moves;
ghost use Rattle.rules.specs.Propensity as Propensity;
ghost use Rattle.engine.specs.Engine as Engine;
ghost use Rattle.engine.specs.Limits as Limits;
ghost use Rattle.kept.specs.Kept as Kept;

use crate::tables;
use crate::tables::Tables;
use engine::marking;
use net::LentNet;

// That of transition j, enabled or not. Behind the last kinetic take nothing multiplies.
fn walked(net: &LentNet, tables: &Tables, counts: &[u64; 32], j: usize, end: usize) -> f64
    requires { let net = net_of net.now in (j < net.transitions) × Engine.Tidy net × Limits.Limits net tables.now.limit × Engine.Counts counts.now × Kept.Rates net tables.now.rates
        × (end ≤ 16 * j + get_or net.arcs j 0) × ((a : ℕ) → end ≤ a → 16 * j ≤ a → a < 16 * j + get_or net.arcs j 0 → get_or net.kind a 0 ≡ 0 → ⊥) }
    ensures { let net = net_of net.now in result ≡ Propensity.factored (Engine.marking net.places counts.now) (Reader.rate_of (Moves.transition (Record.readable net) j))
        (Moves.transition (Record.readable net) j).takes }
{
    let mut x = tables.rates[j];
    for a in 16 * j..end {
        let p = net.place[a];
        x = marking::times(x, net.kind[a], tables.limit[a], counts[p]);
    }
    x
}

// The limit of a take of one token.
const ONE_TOKEN: u64 = 0xFFFF_FFFF_FFFF_FFFF;

// x times the counts of the places of slots a and a + 1, each of which takes one token.
fn times_two(x: f64, place: &[usize; 1024], counts: &[u64; 32], a: usize) -> f64
    requires { (a < 1023) × Engine.Below 32 place.now × Engine.Counts counts.now }
    ensures { result ≡ mul binary64 (mul binary64 x (Propensity.ways (get_or counts.now (get_or place.now a 0) 0) 1))
        (Propensity.ways (get_or counts.now (get_or place.now (a + 1) 0) 0) 1) }
{
    let p = place[a];
    let q = place[a + 1];
    let y = marking::times(x, net::KINETIC_TAKE, ONE_TOKEN, counts[p]);
    marking::times(y, net::KINETIC_TAKE, ONE_TOKEN, counts[q])
}

// The same, where the table says that they are the counts of one place or two without a walk.
fn value(net: &LentNet, tables: &Tables, counts: &[u64; 32], j: usize) -> f64
    requires { let net = net_of net.now in (j < net.transitions) × Engine.Tidy net × Limits.Limits net tables.now.limit × Engine.Counts counts.now × Kept.Rates net tables.now.rates × Kept.Ends net tables.now.ends }
    ensures { let net = net_of net.now in result ≡ Propensity.factored (Engine.marking net.places counts.now) (Reader.rate_of (Moves.transition (Record.readable net) j))
        (Moves.transition (Record.readable net) j).takes }
{
    let end = tables.ends[j];
    let x = tables.rates[j];
    if tables::ALONE <= end {
        if tables::TWO <= end {
            return times_two(x, net.place, counts, 16 * j);
        }
        let p = end - tables::ALONE;
        return marking::times(x, net::KINETIC_TAKE, ONE_TOKEN, counts[p]);
    }
    walked(net, tables, counts, j, end)
}

// Works it out again for the transitions in a word, the lowest first. Every other one is as handed in, whatever it holds.
pub fn revalue(net: &LentNet, tables: &Tables, counts: &[u64; 32], word: u64, props: &mut [f64; 64])
    requires { let net = net_of net.now in Engine.Tidy net × Limits.Limits net tables.now.limit × Engine.Counts counts.now × Kept.Rates net tables.now.rates × Kept.Ends net tables.now.ends
        × ((j : ℕ) → bit word j ≡ true → j < net.transitions) × (length props.old ≡ 64) }
    ensures { let net = net_of net.now in Reworked (bit word)
        (λ (j : ℕ). Propensity.factored (Engine.marking net.places counts.now) (Reader.rate_of (Moves.transition (Record.readable net) j)) (Moves.transition (Record.readable net) j).takes)
        props.old props.new }
{
    let mut left = word;
    while left != 0 {
        let j = u64::trailing_zeros(left) as usize;
        let x = value(net, tables, counts, j);
        props[j] = x;
        left = left & (left - 1);
    }
}
