// What is kept, brought up to date before a race: the transitions that a count may have opened or shut are tested, the propensities that may have changed are
// worked out again, with the marks of the rounded ones, and the sums from the lowest of these on.
ghost use Rattle.std.specs.Prelude.{◌≡◌, true, false, not, ℕ, ◌<◌, eqb, length, get_or, take};
ghost use Rattle.std.specs.Float.{nan};
ghost use Rattle.words.specs.Bits.{bit};
ghost use Rattle.net.specs.Net.{timed as delayed};
ghost use Rattle.net.specs.Readable as Record;
ghost use Rattle.net.specs.Record.{net_of};
ghost use Rattle.net.specs.declared.Net.{Net as NetRecord};
ghost use Rattle.rules.specs.Exact as Exact;
ghost use Rattle.rules.specs.Propensity as Propensity;
ghost use Rattle.jump.specs.Summing as Summing;
ghost use Rattle.engine.specs.Engine as Engine;
ghost use Rattle.engine.specs.Limits as Limits;
ghost use Rattle.engine.specs.Traits as Traits;
ghost use Rattle.kept.specs.Kept as Kept;

use crate::tables::Tables;
use crate::{marks, openness, values};
use engine::sets;
use jump::sums;
use net::LentNet;

// Which transitions are enabled, which propensities are rounded, and which of them may have changed.
#[derive(Clone, Copy)]
struct Settled {
    able: u64,
    marks: u64,
    changed: u64,
}

// All but the sums. A delayed transition does not race, and is not tested: none is enabled. Whatever was crossed or is worked out again loses its mark, and only
// one that takes several tokens kinetically can get it back.
fn settle(
    net: &LentNet,
    tables: &Tables,
    counts: &[u64; 32],
    moved: u64,
    crossed: u64,
    able: u64,
    marks: u64,
    props: &mut [f64; 64],
) -> Settled
    requires { let net = net_of net.now in Engine.Tidy net × Limits.Limits net tables.now.limit × Engine.Counts counts.now × Kept.Rates net tables.now.rates × Kept.Ends net tables.now.ends
        × Traits.Marks net delayed tables.now.timed × Traits.Marks net Traits.takes_several tables.now.heavy
        × Kept.Kept (Record.readable net) (Engine.marking net.places counts.now) moved crossed able props.old
        × Kept.Marked (Record.readable net) (Engine.marking net.places counts.now) moved crossed able marks
        × Kept.AllShut (Record.readable net) (Engine.marking net.places counts.now) × (length props.old ≡ 64) }
    ensures { let net = net_of net.now in Kept.Kept (Record.readable net) (Engine.marking net.places counts.now) 0 0 result.able props.new
        × Kept.Marked (Record.readable net) (Engine.marking net.places counts.now) 0 0 result.able result.marks
        × (length props.new ≡ 64)
        × ((j : ℕ) → bit result.changed j ≡ false → get_or props.new j nan ≡ get_or props.old j nan)
        × ((j : ℕ) → bit result.changed j ≡ true → j < net.transitions) }
{
    let tested = sets::without(crossed, tables.timed);
    let found = openness::retest(net, &tables.limit, counts, tested, able, props);
    let work = (moved | tested) & found;
    values::revalue(net, tables, counts, work, props);
    let old = sets::without(marks, crossed | work);
    let fresh = marks::remark(net, counts, work & tables.heavy, old, props);
    Settled {
        able: found,
        marks: fresh,
        changed: work | tested,
    }
}

// The total of the propensities, which transitions are enabled, and which propensities are rounded.
#[derive(Clone, Copy)]
pub struct Fresh {
    pub a0: f64,
    pub able: u64,
    pub marks: u64,
}

// Brings all that is kept up to date, so that it is a full working.
pub fn refresh(
    net: &LentNet,
    tables: &Tables,
    counts: &[u64; 32],
    moved: u64,
    crossed: u64,
    able: u64,
    marks: u64,
    a0: f64,
    props: &mut [f64; 64],
    sums: &mut [f64; 64],
) -> Fresh
    requires { let net = net_of net.now in Engine.Tidy net × Limits.Limits net tables.now.limit × Engine.Counts counts.now × Kept.Rates net tables.now.rates × Kept.Ends net tables.now.ends
        × Traits.Marks net delayed tables.now.timed × Traits.Marks net Traits.takes_several tables.now.heavy
        × Kept.Kept (Record.readable net) (Engine.marking net.places counts.now) moved crossed able props.old
        × Kept.Marked (Record.readable net) (Engine.marking net.places counts.now) moved crossed able marks
        × Kept.AllShut (Record.readable net) (Engine.marking net.places counts.now) × Summing.Summed net.transitions props.old sums.old a0
        × (length props.old ≡ 64) × (length sums.old ≡ 64) }
    ensures { let net = net_of net.now in (take net.transitions props.new ≡ Propensity.propensities (Record.readable net) (Engine.marking net.places counts.now))
        × Kept.Kept (Record.readable net) (Engine.marking net.places counts.now) 0 0 result.able props.new
        × Kept.Marked (Record.readable net) (Engine.marking net.places counts.now) 0 0 result.able result.marks
        × Summing.Summed net.transitions props.new sums.new result.a0
        × (not (eqb result.marks 0) ≡ Exact.adds_rounded (Record.readable net) (Engine.marking net.places counts.now))
        × (length props.new ≡ 64) × (length sums.new ≡ 64) }
{
    let settled = settle(net, tables, counts, moved, crossed, able, marks, props);
    let changed = settled.changed;
    if changed == 0 {
        return Fresh {
            a0: a0,
            able: settled.able,
            marks: settled.marks,
        };
    }
    let from = u64::trailing_zeros(changed) as usize;
    let total = sums::resum(net.transitions, from, props, sums);
    Fresh {
        a0: total,
        able: settled.able,
        marks: settled.marks,
    }
}
