// The renaming list: pairs of old and new transition numbers, two words a pair.
ghost use Rattle.std.specs.Prelude.{◌≡◌, ℕ, ◌<◌, ◌≤◌, true, false, not, List, length, slice_index, Float};
ghost use Rattle.net.specs.Net as Net;
ghost use Rattle.net.specs.Tests as Tests;
ghost use Rattle.rules.specs.Change as Change;
ghost use Rattle.rules.specs.Timers as Rule;
ghost use Rattle.carried.specs.Pairs as Pairs;
ghost use Rattle.carried.specs.Timers as Timers;

use engine::sets;

// Does a list pass 21, over so many old and so many new transitions: every number in range, and none twice on its side?
pub fn list_fits(pairs: &[u64], old: usize, new: usize) -> bool
    requires { (old ≤ 64) × (new ≤ 64) }
    ensures { (m n : Net.Net) → length m.transitions ≡ old → length n.transitions ≡ new
        → result ≡ not (Change.list_strange m n (Pairs.pairs_of pairs.now)) }
{
    let mut olds: u64 = 0;
    let mut news: u64 = 0;
    for i in 0..pairs.len() / 2 {
        let a = pairs[2 * i];
        let b = pairs[2 * i + 1];
        if (old as u64) <= a {
            return false;
        }
        if (new as u64) <= b {
            return false;
        }
        if (olds >> a) & 1 == 1 {
            return false;
        }
        if (news >> b) & 1 == 1 {
            return false;
        }
        olds = sets::joined(olds, a as usize, true);
        news = sets::joined(news, b as usize, true);
    }
    true
}

// The new number of each transition below 64; 64 where the list has none.
pub fn names_of(pairs: &[u64]) -> [u64; 64]
    ensures { Pairs.Names (Pairs.pairs_of pairs.now) result }
{
    let mut names = [64u64; 64];
    for k in (0..pairs.len() / 2).rev() {
        let a = pairs[2 * k];
        let b = pairs[2 * k + 1];
        if a < 64 {
            names[a as usize] = b;
        }
    }
    names
}

// Does a timer's transition go to one that is in the word? The table is seen as a slice, which costs nothing: it is how the proof learns
// that it is 64 long.
fn goes_to(who: usize, names: &[u64; 64], delayed: u64) -> bool
    ensures { result ≡ Pairs.goes_to names.now delayed who }
{
    let table: &[u64] = names;
    if who < 64 {
        let k = table[who];
        if k < 64 {
            return (delayed >> k) & 1 == 1;
        }
    }
    false
}

// Does every one of so many timers pass 22: listed, and sent to a delayed transition?
pub fn timers_fit<'a>(whos: &'a [usize; 256], n: usize, names: &'a [u64; 64], delayed: u64) -> bool
    requires { n ≤ 256 }
    ensures { (ats : List Float) (takens : List ℕ) → result ≡ not (Tests.any (λ (x : Rule.Timer). not (Pairs.goes_to names.now delayed x.who))
        (Timers.timers_in ats whos.now takens n)) }
{
    whos[..n].iter().all(|who| goes_to(*who, names, delayed))
}

// The transitions of so many timers, each by its new number.
pub fn new_numbers<'a>(whos: &'a [usize; 256], n: usize, names: &'a [u64; 64]) -> [usize; 256]
    requires { (n ≤ 256) × ((i : ℕ) → i < n → slice_index whos.now i < 64) }
    ensures { (i : ℕ) → i < n → slice_index result i ≡ slice_index names.now (slice_index whos.now i) }
{
    let mut numbers = [0usize; 256];
    for i in 0..n {
        numbers[i] = names[whos[i]] as usize;
    }
    numbers
}
