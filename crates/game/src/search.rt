// The two moves, which call each other while the turns left fall. A position is its counts, by value: each move gets a copy of its own. A search keeps nothing
// from one position to the next, so the table of guards that a firing asks for is a blank one.
ghost use Rattle.std.specs.Prelude.{◌≡◌, ◌<◌, ◌≤◌};
ghost use Rattle.net.specs.Readable as Record;
ghost use Rattle.net.specs.Record.{net_of};
ghost use Rattle.engine.specs.Engine as Engine;
ghost use Rattle.game.specs.Search as Search;
ghost use Rattle.game.specs.Play as Play;

use crate::{FaultFound, First};
use engine::marking;
use net::LentNet;

// Whether the fault side wins from a position where recovery moves, and the positions examined.
#[derive(Clone, Copy)]
pub struct RecoveryFound {
    pub won: bool,
    pub examined: u64,
}

// The numbers of the sides. They stay numbers: C lends the list of sides as such (cild_game).
pub const FAULT: u64 = 0;

pub const RECOVERY: u64 = 1;

// A game on a tidy net: the tables that its firings ask for, the side of each transition, and the count that the fault side wants to see at a place.
#[derive(Clone, Copy)]
pub struct Game<'a> {
    pub net: &'a LentNet<'a>,
    pub limit: &'a [u64; 1024],
    pub guards: &'a [u64; 160],
    pub sides: &'a [u64],
    pub wanted: usize,
    pub count: u64,
}

// The two moves stay two: one move of the fault side that wins is enough, and of recovery each must, so a move for both sides would ask at each answer whose
// turn it is (`r.won == (side == FAULT)`).
impl Game<'_> {
    // The counts after transition j has fired, if it may.
    fn fired(&self, counts: [u64; 32], j: usize) -> Option<[u64; 32]>
        requires { (j < self.now.net.now.transitions) × Play.Ready self.now × Engine.Counts counts }
        ensures { let net = net_of self.now.net.now in Play.FiredBy (Record.readable net) (Engine.marking net.places counts) net.places j result }
    {
        let mut after = counts;
        if !marking::enabled(self.net, self.limit, &after, j) {
            return None;
        }
        marking::fire(self.net, self.guards, &mut after, j)?;
        Some(after)
    }

    // The fault side moves, with so many turns left.
    #[cycle(fault_move_recovery_move)]
    pub fn fault_move(&self, counts: [u64; 32], left: u64) -> FaultFound
        requires left_bound { (left ≤ 8) × Play.Ready self.now × Engine.Counts counts }
        ensures { Play.fault_of result ≡ Search.fault_move left (Play.game_in self.now) (Engine.marking self.now.net.now.places counts) }
    {
        if counts[self.wanted] == self.count {
            return FaultFound {
                first: Some(First::Already),
                examined: 1,
            };
        }
        if left == 0 {
            return FaultFound {
                first: None,
                examined: 1,
            };
        }
        let less = left - 1;
        let mut examined: u64 = 1;
        let mut moved = false;
        for j in 0..self.net.transitions {
            if self.sides[j] == FAULT {
                if let Some(after) = self.fired(counts, j) {
                    let r = self.recovery_move(after, less);
                    examined += r.examined;
                    if r.won {
                        return FaultFound {
                            first: Some(First::Fires(j)),
                            examined,
                        };
                    }
                    moved = true;
                }
            }
        }
        if moved {
            return FaultFound {
                first: None,
                examined,
            };
        }
        let r = self.recovery_move(counts, less);
        examined += r.examined;
        if r.won {
            return FaultFound {
                first: Some(First::Passes),
                examined,
            };
        }
        FaultFound {
            first: None,
            examined,
        }
    }

    // The recovery side moves, with so many turns left.
    #[cycle(fault_move_recovery_move)]
    fn recovery_move(&self, counts: [u64; 32], left: u64) -> RecoveryFound
        requires left_bound { (left ≤ 8) × Play.Ready self.now × Engine.Counts counts }
        ensures { Play.recovery_of result ≡ Search.recovery_move left (Play.game_in self.now) (Engine.marking self.now.net.now.places counts) }
    {
        if counts[self.wanted] == self.count {
            return RecoveryFound {
                won: true,
                examined: 1,
            };
        }
        if left == 0 {
            return RecoveryFound {
                won: false,
                examined: 1,
            };
        }
        let less = left - 1;
        let mut examined: u64 = 1;
        let mut replied = false;
        for j in 0..self.net.transitions {
            if self.sides[j] != FAULT {
                if let Some(after) = self.fired(counts, j) {
                    let r = self.fault_move(after, less);
                    examined += r.examined;
                    if r.first.is_none() {
                        return RecoveryFound {
                            won: false,
                            examined,
                        };
                    }
                    replied = true;
                }
            }
        }
        if replied {
            return RecoveryFound {
                won: true,
                examined,
            };
        }
        let r = self.fault_move(counts, less);
        RecoveryFound {
            won: r.first.is_some(),
            examined: examined + r.examined,
        }
    }
}
