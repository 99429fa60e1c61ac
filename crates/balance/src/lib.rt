// Subscribers neither made nor lost: does every transition put exactly as much weight as it takes?
#![tactic(auto)]

mod weighing;

ghost use Rattle.std.specs.Prelude.{◌≡◌};
ghost use Rattle.net.specs.Record.{net_of};
ghost use Rattle.balance.specs.Call as Call;

use net::LentNet;
use refusals::Refusal;

// The lowest transition that does not put exactly as much weight as it takes, place p weighing weights[p], if there is one. A net that does not fit is turned
// down, then by 3 a list of another length than the place count, then by 4 a weight above 1,000.
pub fn balance(net: &LentNet, weights: &[u64]) -> Result<Option<usize>, Refusal>
    ensures { Call.call_of result ≡ Call.called (net_of net.now) weights.now }
{
    net::test_net(net)?;
    if weights.len() != net.places {
        return Err(Refusal::NoSuchPlace);
    }
    if weighing::some_above(weights) {
        return Err(Refusal::OutsideDomain);
    }
    Ok(weighing::first_uneven(net, weights))
}
