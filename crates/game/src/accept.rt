// What a game's call tests after its net, and the game of a call that is accepted.
ghost use Rattle.std.specs.Prelude.{◌≡◌, ℕ, ◌^◌, ◌<◌, ◌≤◌, length, get_or};
ghost use Rattle.std.proofs.Math.Option.{none};
ghost use Rattle.net.specs.Readable as Record;
ghost use Rattle.net.specs.Record.{net_of};
ghost use Rattle.net.specs.declared.Net.{Net as NetRecord};
ghost use Rattle.rules.specs.Moves as Moves;
ghost use Rattle.engine.specs.Engine as Engine;
ghost use Rattle.game.specs.Game as Rules;
ghost use Rattle.game.specs.Search as Search;
ghost use Rattle.game.specs.Play as Play;
ghost use Rattle.game.specs.Call as Call;

use crate::search::Game;
use crate::{FaultFound, search};
use engine::slots::{self, Slots};
use net::LentNet;

// The bounds of document 02, order 13.
const MOST_OF_A_SIDE: usize = 8;

const MOST_TURNS: u64 = 8;

// How many transitions the fault side has.
fn faults(sides: &[u64]) -> usize
    ensures { (result ≡ Play.owned Rules.fault (Play.sides_of sides.now)) × (result ≤ length sides.now) }
{
    sides.iter().filter(|side| **side == search::FAULT).count()
}

// Is each number a side's?
fn each_side(sides: &[u64]) -> bool
    ensures { result ≡ Call.each_side sides.now }
{
    sides.iter().all(|side| *side <= search::RECOVERY)
}

// Does the list give each transition one side, and each side at most 8?
pub fn sides_fit(sides: &[u64], transitions: usize) -> bool
    ensures { result ≡ Call.sides_fit transitions sides.now }
{
    if sides.len() != transitions {
        return false;
    }
    if !each_side(sides) {
        return false;
    }
    let f = faults(sides);
    if MOST_OF_A_SIDE < f {
        return false;
    }
    sides.len() - f <= MOST_OF_A_SIDE
}

// 1 to 8 turns.
pub fn turns_fit(turns: u64) -> bool
    ensures { result ≡ Call.turns_fit turns }
{
    if 1 <= turns {
        return turns <= MOST_TURNS;
    }
    false
}

// The game on the tidy net whose fields are lent: the table of limits, the first counts, and the search.
fn lent_game(net: &LentNet, sides: &[u64], wanted: usize, count: u64, turns: u64) -> FaultFound
    requires { let net = net_of net.now in Engine.Tidy net × ((p : ℕ) → p < net.places → get_or net.initial p 0 ≤ 2 ^ 53)
        × Play.Sided net.transitions sides.now × (wanted < net.places) × (turns ≤ 8) }
    ensures { let net = net_of net.now in Play.fault_of result ≡ Search.fault_move turns (Play.game_of (Record.readable net) sides.now wanted count)
        (Moves.initial_counts (Record.readable net)) }
{
    let mut limit = [0u64; 1024];
    slots::fill_limits(net, &mut limit);
    let guards = [0u64; 160];
    let counts = slots::first_counts(net.places, net.initial);
    let game = Game {
        net,
        limit: &limit,
        guards: &guards,
        sides,
        wanted,
        count,
    };
    game.fault_move(counts, turns)
}

// The game of a call that no test turns down.
pub fn accepted_game(
    net: &LentNet,
    sides: &[u64],
    wanted: usize,
    count: u64,
    turns: u64,
) -> FaultFound
    requires { let net = net_of net.now in (Record.fault net ≡ none) × Play.Sided net.transitions sides.now × (wanted < net.places) × (turns ≤ 8) }
    ensures { let net = net_of net.now in Play.fault_of result ≡ Search.fault_move turns (Play.game_of (Record.readable net) sides.now wanted count) (Moves.initial_counts (Record.readable net)) }
{
    let mut slots = Slots::blank();
    slots.fill(net);
    // Lent anew, for no longer than the slots.
    let fields = *net;
    lent_game(&slots.of(&fields), sides, wanted, count, turns)
}
