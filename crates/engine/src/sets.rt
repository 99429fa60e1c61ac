// Words as sets of transitions: j is in one where its bit j is set.
ghost use Rattle.std.specs.Prelude.{◌≡◌, ◌&&◌, ◌||◌, not, ℕ, ◌<◌, eqb};
ghost use Rattle.words.specs.Bits.{bit};

// What is in the first word and not in the second.
pub fn without(a: u64, b: u64) -> u64
    ensures { (j : ℕ) → bit result j ≡ (bit a j && not (bit b j)) }
{
    a ^ (a & b)
}

// The word, with j in it where `on` holds.
pub fn joined(word: u64, j: usize, on: bool) -> u64
    requires { j < 64 }
    ensures { (i : ℕ) → bit result i ≡ (bit word i || (on && eqb i j)) }
{
    if on {
        return word | (1u64 << j);
    }
    word
}
