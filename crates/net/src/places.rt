// The tests of a net's places, in their order.
ghost use Rattle.std.specs.Prelude.{◌≡◌};
ghost use Rattle.net.specs.Readable as Readable;
ghost use Rattle.net.specs.Record.{net_of};

use crate::{LentNet, bounds};
use refusals::Refusal;

// The first of 2, 4, 17 and 18 that applies to place p. The 33rd place is 2, and its slots are not looked at.
fn place_at(net: &LentNet, p: usize) -> Result<(), Refusal>
    ensures { let net = net_of net.now in Readable.meaning result ≡ Readable.place_fault net.initial net.capacity net.label
        net.lengths p }
{
    if bounds::MOST_PLACES <= p {
        return Err(Refusal::BadSize);
    }
    crate::place_fault(p, false, net.initial[p], net.capacity[p])?;
    crate::label_fault(net.label, net.lengths, p)
}

// The first fault of the places, in their order.
pub fn places_fault(net: &LentNet) -> Result<(), Refusal>
    ensures { let net = net_of net.now in Readable.meaning result ≡ Readable.places_fault net.initial net.capacity net.label
        net.lengths 0 net.places }
{
    for p in 0..net.places {
        place_at(net, p)?;
    }
    Ok(())
}
