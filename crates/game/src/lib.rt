// The game of order 13: the sides fire in turn, the fault side first.
#![tactic(auto)]

mod accept;
mod search;

ghost use Rattle.std.specs.Prelude.{◌≡◌};
ghost use Rattle.net.specs.Record.{net_of};
ghost use Rattle.game.specs.Call as Call;

use engine::slots;
use net::LentNet;
use refusals::Refusal;

// The first move by which the fault side wins.
#[derive(Clone, Copy)]
pub enum First {
    Already,
    Fires(usize),
    Passes,
}

// How the fault side wins, if it does, and how many positions were examined.
#[derive(Clone, Copy)]
pub struct FaultFound {
    pub first: Option<First>,
    pub examined: u64,
}

// Can the fault side bring the place to exactly the count, within so many turns, however recovery plays? sides[j] is 0 where transition j is the fault
// side's and 1 where it is recovery's. The answer is how it wins, by the lowest first transition, or that it does not, with the positions examined; or
// the refusal by which a net, a delay, a list of sides, a turn number or a place is turned down.
pub fn game(
    net: &LentNet,
    sides: &[u64],
    place: usize,
    count: u64,
    turns: u64,
) -> Result<FaultFound, Refusal>
    ensures is { Call.call_of result ≡ Call.called (net_of net.now) sides.now place count turns }
    ensures exactly { Call.Exact (net_of net.now) sides.now place count turns (Call.call_of result) }
{
    net::test_net(net)?;
    if slots::any_timed(net.transitions, net.delay) {
        return Err(Refusal::DelayedTransition);
    }
    if !accept::sides_fit(sides, net.transitions) {
        return Err(Refusal::BadSides);
    }
    if !accept::turns_fit(turns) {
        return Err(Refusal::BadSides);
    }
    if net.places <= place {
        return Err(Refusal::NoSuchGoal);
    }
    Ok(accept::accepted_game(net, sides, place, count, turns))
}
