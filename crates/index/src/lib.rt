// The index of a net: which propensities have to be worked out again. Its tables are made once a call by inner functions, over a net whose slots are in order;
// one entry stands here, which hands out the table of the places.
#![tactic(auto)]

pub mod guards;
pub mod listed;
pub mod marks;

ghost use Rattle.net.specs.Readable as Record;
ghost use Rattle.net.specs.Record.{net_of};
ghost use Rattle.index.specs.Table as Table;

use engine::slots::Slots;
use net::LentNet;
use refusals::Refusal;

// Sets masks[p] to the transitions that are listed for place p: bit j is set exactly where transition j has an input, read or inhibitor on it, or a net change
// above 0 on it where its capacity is above 0. A place that the net does not have gets 0. A net that is turned down leaves the masks as they were.
pub fn index_of(net: &LentNet, masks: &mut [u64; 32]) -> Result<(), Refusal>
    ensures { let net = net_of net.now in Table.Answered (Record.fault net) (Record.readable net) masks.old masks.new result }
{
    net::test_net(net)?;
    let mut slots = Slots::blank();
    slots.fill(net);
    // Lent anew, for no longer than the slots.
    let fields = *net;
    *masks = listed::listed_words(&slots.of(&fields));
    Ok(())
}
