// The table by which a change of a count passes most transitions over (specs/Guards), as the functions that move tokens read it.
// It stays one array of 160 words: `Guards.Guards` and `Guards.crossing`, by which all who hand it on are proved, speak of one list.
ghost use Rattle.std.specs.Prelude.{◌≡◌, ◌&&◌, ◌||◌, ℕ, ◌+◌, ◌<◌, eqb, leb, ltb, get_or};
ghost use Rattle.words.specs.Bits.{bit};
ghost use Rattle.engine.specs.Guards as Guards;

// The transitions with a threshold of 1 at place p, where the change begins or ends at 0.
fn edge<'a>(guards: &'a [u64; 160], p: usize, low: u64) -> u64
    requires { p < 32 }
    ensures { (j : ℕ) → bit result j ≡ (eqb low 0 && bit (get_or guards.now (32 + p) 0) j) }
{
    if low == 0 {
        return guards[32 + p];
    }
    0
}

// All that are listed for place p, where the change may cross one of its other thresholds.
fn range<'a>(guards: &'a [u64; 160], p: usize, low: u64, high: u64) -> u64
    requires { p < 32 }
    ensures { (j : ℕ) → bit result j ≡ (leb (get_or guards.now (96 + p) 0) high && ltb low (get_or guards.now (128 + p) 0)
        && bit (get_or guards.now (64 + p) 0) j) }
{
    if guards[96 + p] <= high {
        if low < guards[128 + p] {
            return guards[64 + p];
        }
        return 0;
    }
    0
}

// The transitions for which a change of place p's count from low up to high, or back, may open or shut a slot.
pub fn crossed<'a>(guards: &'a [u64; 160], p: usize, low: u64, high: u64) -> u64
    requires { p < 32 }
    ensures { (j : ℕ) → bit result j ≡ Guards.crossing guards.now p low high j }
{
    edge(guards, p, low) | range(guards, p, low, high)
}
