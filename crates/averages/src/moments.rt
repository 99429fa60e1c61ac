// Sums over paths in lent tables, and what the means and deviations are made of them. Each works over the first `cells` cells, or as many as there are.
ghost use Rattle.std.specs.Prelude.{◌≡◌, Float};
ghost use Rattle.net.specs.Net.{zero64};
ghost use Rattle.averages.specs.Front as Front;
ghost use Rattle.averages.specs.Moments as Moments;

// Sets the cells to +0.
pub fn clear(cells: usize, table: &mut [f64])
    ensures { table.new ≡ Front.on_front (λ (x : Float). zero64) cells table.old }
{
    let n = cells.min(table.len());
    table[..n].fill(0.0);
}

// Adds the path's cells to the sums.
pub fn add(cells: usize, path: &[f64], sums: &mut [f64])
    ensures { sums.new ≡ Front.with_front Moments.plus cells path.now sums.old }
{
    let n = cells.min(path.len()).min(sums.len());
    for c in 0..n {
        sums[c] += path[c];
    }
}

// Adds the squares of the path's cells.
pub fn add_squares(cells: usize, path: &[f64], squares: &mut [f64])
    ensures { squares.new ≡ Front.with_front Moments.plus_square cells path.now squares.old }
{
    let n = cells.min(path.len()).min(squares.len());
    for c in 0..n {
        let v = path[c];
        squares[c] += v * v;
    }
}

// Turns sums into means.
pub fn to_means(cells: usize, n: f64, sums: &mut [f64])
    ensures { sums.new ≡ Front.on_front (Moments.mean_of n) cells sums.old }
{
    let m = cells.min(sums.len());
    for c in 0..m {
        sums[c] /= n;
    }
}

// The deviation, from a sum of squares and a mean.
fn deviation(n: f64, squares: f64, mean: f64) -> f64
    ensures { result ≡ Moments.deviation_of n squares mean }
{
    let v = squares / n - mean * mean;
    if v < 0.0 {
        return root::sqrt(0.0);
    }
    root::sqrt(v)
}

// Turns sums of squares into deviations, by the means.
pub fn to_deviations(cells: usize, n: f64, means: &[f64], squares: &mut [f64])
    ensures { squares.new ≡ Front.with_front (Moments.deviation_of n) cells means.now squares.old }
{
    let m = cells.min(means.len()).min(squares.len());
    for c in 0..m {
        squares[c] = deviation(n, squares[c], means[c]);
    }
}
