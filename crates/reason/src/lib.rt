// Why a continuous run cannot express a net, in the words of document 001.
#![tactic(auto)]

mod writing;

ghost use Rattle.std.specs.Prelude.{◌≡◌};
ghost use Rattle.net.specs.Record.{net_of};
ghost use Rattle.reason.specs.Call as Call;

use net::LentNet;
use refusals::Refusal;

// Writes into a lent buffer why the diffusion has no answer for a net, labels standing for place numbers, and answers the text's length; a net that is not
// gated has an empty text. A net that does not fit is turned down, then by 19 a buffer shorter than the text, with no byte written; bytes behind the text
// stay.
pub fn reason(net: &LentNet, out: &mut [u8]) -> Result<usize, Refusal>
    ensures { (out.new, Call.told result) ≡ Call.called (net_of net.now) out.old }
{
    net::test_net(net)?;
    let g = gates::gates_of(net);
    writing::write_reason(out, g, net)
}
