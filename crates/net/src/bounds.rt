// What a number of a net may be: document 01, "Domain".
ghost use Rattle.std.specs.Prelude.{◌≡◌, ◌||◌, eqb, leb, ltb};
ghost use Rattle.net.specs.Tests as Tests;

pub const MOST_PLACES: usize = 32;

pub const MOST_TRANSITIONS: usize = 64;

pub const MOST_ARCS: usize = 16;

// 2^53
pub const MOST_TOKENS: u64 = 9007199254740992;

pub const MOST_WEIGHT: u64 = 1_000_000;

pub const MOST_KINETIC: u64 = 16;

// 2^-100 and 2^100
pub const LEAST_RATE: f64 = 7.888609052210118e-31;

pub const MOST_RATE: f64 = 1.2676506002282294e30;

// 2^30
pub const MOST_DELAY: f64 = 1073741824.0;

// 0, −0 too, or 2^-100 to 2^100. A NaN fits nowhere.
pub fn rate_fits(rate: f64) -> bool
    ensures { result ≡ Tests.rate_fits rate }
{
    rate == 0.0 || (LEAST_RATE <= rate && rate <= MOST_RATE)
}

// 0, −0 too, to 2^30. A NaN fits nowhere.
pub fn delay_fits(delay: f64) -> bool
    ensures { result ≡ Tests.delay_fits delay }
{
    0.0 <= delay && delay <= MOST_DELAY
}

// 2: no place, a 65th transition or a 17th arc.
pub fn too_many(places: usize, before: usize, count: usize) -> bool
    ensures { result ≡ (eqb places 0 || leb 64 before || ltb 16 count) }
{
    places == 0 || MOST_TRANSITIONS <= before || MOST_ARCS < count
}
