// The tables that a call makes once from its net: the limits of its slots, what a propensity is worked from, and the index of document 02's order 5.
ghost use Rattle.std.specs.Prelude.{◌≡◌, length};
ghost use Rattle.net.specs.Record.{net_of};
ghost use Rattle.net.specs.declared.Net.{Net as NetRecord};
ghost use Rattle.engine.specs.Engine as Engine;
ghost use Rattle.engine.specs.Limits as Limits;
ghost use Rattle.playing.specs.Keeping as Keeps;

use engine::slots;
use index::{guards, marks};
use kept::tables;
use kept::tables::Tables;
use net::LentNet;

// Fills the tables of the tidy net whose fields are lent.
pub fn fill_tables(net: &LentNet, tables: &mut Tables)
    requires { Engine.Tidy (net_of net.now) }
    ensures { let net = net_of net.now in Limits.Limits net tables.new.limit × Keeps.Tables net tables.new.rates tables.new.ends tables.new.guards tables.new.timed tables.new.heavy }
{
    slots::fill_limits(net, &mut tables.limit);
    tables::rates_of(net, &mut tables.rates);
    tables::ends_of(net, &mut tables.ends);
    tables.guards = guards::guards_of(net, &tables.limit);
    tables.timed = marks::timed_word(net);
    tables.heavy = marks::heavy_word(net);
}
