// A halted path in 816 words and 257 times (specs/Layout): words 0 to 31 are the counts, 32 to 35 the generator, 36 the steps, 37 their limit,
// 38 the peak, 39 the rounded steps, 40 how many instants are recorded, 41 how many timers run, 48 + i the transition of timer i and 304 + i the
// weight that it took; time 0 is the clock, and 1 + i when timer i completes. What a path does not use is not looked at, and is written as 0.
ghost use Rattle.std.specs.Prelude.{◌≡◌, List, ℕ, ◌+◌, ◌≤◌, ◌<◌, Float, length, get_or, take, drop};
ghost use Rattle.std.specs.Float.{nan};
ghost use Rattle.engine.specs.Engine.{marking};
ghost use Rattle.carried.specs.Timers.{timers_in};
ghost use Rattle.c_face.specs.Layout as Layout;

use timers::queue::Queue;

// The counts.
pub fn counts_in(words: &[u64; 816]) -> [u64; 32]
    ensures { result ≡ take 32 words.now }
{
    let mut counts = [0u64; 32];
    counts.copy_from_slice(&words[..32]);
    counts
}

// The generator.
pub fn generator_in(words: &[u64; 816]) -> [u64; 4]
    ensures { result ≡ take 4 (drop 32 words.now) }
{
    [words[32], words[33], words[34], words[35]]
}

// The timers. All 256 are copied, whatever their number is.
pub fn timers_in<'a>(words: &'a [u64; 816], times: &'a [f64; 257]) -> Queue
    ensures { timers_in result.ats result.whos result.takens result.len ≡ Layout.timers_of words.now times.now }
{
    let mut ats = [0.0f64; 256];
    let mut whos = [0usize; 256];
    let mut takens = [0u64; 256];
    ats.copy_from_slice(&times[1..]);
    takens.copy_from_slice(&words[304..560]);
    for i in 0..256 {
        whos[i] = words[48 + i] as usize;
    }
    Queue {
        ats,
        whos,
        takens,
        len: words[41] as usize,
    }
}

// Puts the first n values into the words from word `at` on.
fn put(words: &mut [u64; 816], at: usize, values: &[u64], n: usize)
    requires { (n ≤ length values.now) × (at + n ≤ 816) }
    ensures { Layout.Put words.old at values.now n words.new }
{
    words[at..at + n].copy_from_slice(&values[..n]);
}

// Puts the transitions of the first n timers into the words from word 48 on.
fn put_whos(words: &mut [u64; 816], whos: &[usize; 256], n: usize)
    requires { n ≤ 256 }
    ensures { Layout.Put words.old 48 whos.now n words.new }
{
    for k in 0..n {
        words[48 + k] = whos[k] as u64;
    }
}

// All the words of a path: its counts, ten numbers from word 32 on, and its timers. They are cleared first, so that each part stores only what the
// path uses.
pub fn write_words<'a>(
    words: &mut [u64; 816],
    places: usize,
    counts: &'a [u64; 32],
    numbers: &'a [u64; 10],
    whos: &'a [usize; 256],
    takens: &'a [u64; 256],
    n: usize,
)
    ensures { (ats : List Float) (i : ℕ) → i < 816 → get_or words.new i 0 ≡ Layout.word_in (marking places counts.now) numbers.now
        (timers_in ats whos.now takens.now n) i }
{
    *words = [0; 816];
    let k = n.min(256);
    put(words, 0, counts, places.min(32));
    put(words, 32, numbers, 10);
    put_whos(words, whos, k);
    put(words, 304, takens, k);
}

// The clock, and when so many timers complete, with +0 for the rest of 256.
pub fn write_times(times: &mut [f64; 257], clock: f64, ats: &[f64; 256], n: usize)
    ensures { (whos takens : List ℕ) (i : ℕ) → i < 257 → get_or times.new i nan ≡ Layout.time_in clock (timers_in ats.now whos takens n) i }
{
    times[0] = clock;
    for i in 0..256 {
        if i < n {
            times[i + 1] = ats[i];
        } else {
            times[i + 1] = 0.0;
        }
    }
}
