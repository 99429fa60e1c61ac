// The state of a carried path: counts, step counts, times and the weights that its timers took.
ghost use Rattle.std.specs.Prelude.{◌≡◌, ℕ, ◌≤◌, not, ◌&&◌, List, take, nat_lt, Float};
ghost use Rattle.net.specs.Net.{Marking};
ghost use Rattle.net.specs.Tests.{any};
ghost use Rattle.rng.specs.State.{State as Generator};
ghost use Rattle.rules.specs.Change as Change;
ghost use Rattle.rules.specs.Step as Step;
ghost use Rattle.rules.specs.Timers.{Timer};
ghost use Rattle.carried.specs.Timers as Timers;

// 2^53
const MOST_COUNT: u64 = 9_007_199_254_740_992;

// What 16 arcs of 1,000,000 take.
const MOST_TAKEN: u64 = 16_000_000;

// Is every place's count at most 2^53?
fn counts_fit(counts: &[u64; 32], places: usize) -> bool
    requires { places ≤ 32 }
    ensures { result ≡ Step.counts_fit (take places counts.now) }
{
    counts[..places].iter().all(|count| *count <= MOST_COUNT)
}

// Is a time neither negative nor infinite nor NaN?
fn time_fits(t: f64) -> bool
    ensures { result ≡ Change.time_fits t }
{
    if 0.0 <= t {
        return t < f64::from_bits(0x7FF0_0000_0000_0000);
    }
    false
}

// Are so many completion times, from the first, times none of which is below the one before it, or the first below the clock?
fn completions_fit(clock: f64, ats: &[f64; 256], n: usize) -> bool
    requires { n ≤ 256 }
    ensures { (whos takens : List ℕ) → result ≡ (not (any (λ (x : Timer). not (Change.time_fits x.at)) (Timers.timers_in ats.now whos takens n))
        && not (Change.falls clock (Timers.timers_in ats.now whos takens n))) }
{
    let mut last = clock;
    for i in 0..n {
        let at = ats[i];
        if !time_fits(at) {
            return false;
        }
        if at < last {
            return false;
        }
        last = at;
    }
    true
}

// Did none of so many timers take more than 16,000,000?
fn weights_fit(takens: &[u64; 256], n: usize) -> bool
    requires { n ≤ 256 }
    ensures { (ats : List Float) (whos : List ℕ) → result ≡ not (any (λ (x : Timer). nat_lt 16_000_000 x.taken) (Timers.timers_in ats whos takens.now n)) }
{
    !takens[..n].iter().any(|taken| MOST_TAKEN < *taken)
}

// Does a carried state pass the first 4, over so many places: counts, step counts, times, taken weights, and at most 256 timers?
pub fn state_fits<'a>(
    places: usize,
    counts: &'a [u64; 32],
    steps: u64,
    limit: u64,
    rounded: u64,
    clock: f64,
    ats: &'a [f64; 256],
    takens: &'a [u64; 256],
    n: usize,
) -> bool
    requires { places ≤ 32 }
    ensures { (whos : List ℕ) (g : Generator) (peak : ℕ) (xs : List Float) (shown : List Marking) → result ≡ not (Change.state_strange 256 (record {
      now = Step.state clock (take places counts.now) (Timers.timers_in ats.now whos takens.now n) g;
      steps = steps;
      limit = limit;
      peak = peak;
      rounded = rounded;
      instants = xs;
      recorded = shown;
    })) }
{
    if 256 < n {
        return false;
    }
    if !counts_fit(counts, places) {
        return false;
    }
    if limit < steps {
        return false;
    }
    if steps < rounded {
        return false;
    }
    if !time_fits(clock) {
        return false;
    }
    if !completions_fit(clock, ats, n) {
        return false;
    }
    weights_fit(takens, n)
}
