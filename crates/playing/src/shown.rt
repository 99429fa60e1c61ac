// What a run shows: the counts at the instants, in the cells of the lent table.
ghost use Rattle.std.specs.Prelude.{◌≡◌, ◌+◌, ◌*◌, ◌<◌, ◌≤◌, length};
ghost use Rattle.std.proofs.Math.ListN as ListN;
ghost use Rattle.engine.specs.Engine as Engine;
ghost use Rattle.playing.specs.Cells as Cells;

use crate::PathEnd;
use averages::moments;

// The number of the first instant from next on that the clock has not reached.
fn reached(instants: &[f64], clock: f64, next: usize) -> usize
    requires { next ≤ length instants.now }
    ensures { result ≡ next + Cells.reached_by clock (ListN.drop next instants.now) }
{
    for i in next..instants.len() {
        if !(instants[i] <= clock) {
            return i;
        }
    }
    instants.len()
}

// Writes the counts into the cells of instant i. A count fits a signed number, of which a float is made in one instruction.
fn fill_column(table: &mut [f64], counts: &[u64; 32], places: usize, n: usize, i: usize)
    requires { (places ≤ 32) × (i < n) × (n ≤ 1024) × (places * n ≤ length table.old) × Engine.Counts counts.now }
    ensures { Cells.Filled places n i (i + 1) counts.now table.old table.new }
{
    for p in 0..places {
        table[p * n + i] = counts[p] as i64 as f64;
    }
}

// Shows the counts at the instants from `from` to before `to`.
pub fn fill(table: &mut [f64], counts: &[u64; 32], places: usize, n: usize, from: usize, to: usize)
    requires { (places ≤ 32) × (to ≤ n) × (n ≤ 1024) × (places * n ≤ length table.old) × Engine.Counts counts.now }
    ensures { Cells.Filled places n from to (Engine.marking places counts.now) table.old table.new }
{
    for i in from..to {
        fill_column(table, counts, places, n, i);
    }
}

// Sets the first cells to +0.
pub fn clear(table: &mut [f64], cells: usize)
    requires { cells ≤ length table.old }
    ensures { table.new ≡ Cells.cleared cells table.old }
{
    moments::clear(cells, table);
}

// Shows the counts at every instant that the clock has reached and that has not been shown, and answers how many have been.
pub fn show(
    instants: &[f64],
    table: &mut [f64],
    counts: &[u64; 32],
    places: usize,
    clock: f64,
    next: usize,
) -> usize
    requires { (places ≤ 32) × (next ≤ length instants.now) × (length instants.now ≤ 1024)
        × (places * length instants.now ≤ length table.old) × Engine.Counts counts.now }
    ensures { Cells.ShownBy places instants.now clock (Engine.marking places counts.now) next result table.old table.new }
{
    let n = instants.len();
    // Few clock readings reach an instant: the next one is looked at here, and the loops run only where it is reached.
    if next < n {
        if instants[next] <= clock {
            let to = reached(instants, clock, next);
            fill(table, counts, places, n, next, to);
            return to;
        }
    }
    next
}

// What the end of a run leaves in the cells: the counts at the instants from next on; nothing more where it is halted; +0 everywhere where it is refused.
pub fn finish(
    table: &mut [f64],
    counts: &[u64; 32],
    places: usize,
    n: usize,
    next: usize,
    end: PathEnd,
)
    requires { (places ≤ 32) × (n ≤ 1024) × (places * n ≤ length table.old) × Engine.Counts counts.now }
    ensures { Cells.FinishedBy places n next (Engine.marking places counts.now) table.old table.new end }
{
    match end {
        PathEnd::Quiet | PathEnd::Spent | PathEnd::Reached => {
            fill(table, counts, places, n, next, n)
        }
        PathEnd::Halted => {}
        PathEnd::Refused(_) => clear(table, places * n),
    }
}
