// The tests of a net's transitions, in their order.
ghost use Rattle.std.specs.Prelude.{◌≡◌};
ghost use Rattle.net.specs.Readable as Readable;
ghost use Rattle.net.specs.Record.{net_of};

use crate::{LentNet, bounds};
use refusals::Refusal;

// The first of 2 to 7 that applies to transition j. The 65th transition is 2, and its slots are not looked at.
fn transition_at(net: &LentNet, j: usize) -> Result<(), Refusal>
    ensures { Readable.meaning result ≡ Readable.move_fault (net_of net.now) j }
{
    if bounds::MOST_TRANSITIONS <= j {
        return Err(Refusal::BadSize);
    }
    crate::transition_fault(net, j, false, net.rate[j], net.delay[j], net.arcs[j])
}

// The first fault of the transitions, in their order.
pub fn transitions_fault(net: &LentNet) -> Result<(), Refusal>
    ensures { Readable.meaning result ≡ Readable.moves_fault (net_of net.now) 0 net.now.transitions }
{
    for j in 0..net.transitions {
        transition_at(net, j)?;
    }
    Ok(())
}
