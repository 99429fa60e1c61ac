// What is recorded of a carried path: which instants, and their cells in the lent table.
ghost use Rattle.std.specs.Prelude.{◌≡◌, ◌-◌, ◌*◌, ◌≤◌, not, ◌&&◌, length, take, drop, nat_le};
ghost use Rattle.std.specs.Float.Ieee as Ieee;
ghost use Rattle.net.specs.Tests as Tests;
ghost use Rattle.rules.specs.Change as Change;
ghost use Rattle.carried.specs.Records as Records;

// 2^53
const MOST: f64 = 9007199254740992.0;

// Are the recorded instants a first part of the list that holds every instant up to the clock?
pub fn records_fit(instants: &[f64], recorded: usize, clock: f64) -> bool
    ensures { result ≡ (nat_le recorded (length instants.now) && not (Tests.any (λ (x : Ieee.Float). Ieee.le x clock) (drop recorded instants.now))) }
{
    if instants.len() < recorded {
        return false;
    }
    !instants[recorded..].iter().any(|x| *x <= clock)
}

// Is a cell a whole number in 0..2^53? Its fraction is cut off by a function of `std`: `as` is for whole numbers.
fn cell_fits(x: f64) -> bool
    ensures { result ≡ Change.cell_fits x }
{
    if 0.0 <= x {
        if x <= MOST {
            return x == std::num::truncating_f64_to_u64(x) as f64;
        }
    }
    false
}

// Are all of these cells such?
fn all_fit(cells: &[f64]) -> bool
    ensures { result ≡ not (Records.some_strange cells.now) }
{
    cells.iter().all(|x| cell_fits(*x))
}

// Are the cells of the first so many instants such, at every place? The table has n cells a place.
pub fn cells_fit(table: &[f64], places: usize, n: usize, recorded: usize) -> bool
    requires { (recorded ≤ n) × (places ≤ 32) × (n ≤ 1024) × (places * n ≤ length table.now) }
    ensures { result ≡ not (Records.record_strange places n recorded table.now) }
{
    for p in 0..places {
        let from = p * n;
        if !all_fit(&table[from..from + recorded]) {
            return false;
        }
    }
    true
}
