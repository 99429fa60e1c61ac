// What is asked for: its tests, its seeds and its instants.
ghost use Rattle.std.specs.Prelude.{◌≡◌};
ghost use Rattle.net.specs.Readable as Readable;
ghost use Rattle.averages.specs.Request as Spec;
ghost use Rattle.averages.specs.Front as Front;

use refusals::Refusal;

// 2^30
const MOST_HORIZON: f64 = 1073741824.0;

// The first of 8, 9 and 10 that applies.
pub fn request_fault(
    samples: u64,
    realizations: u64,
    seed: u64,
    horizon: f64,
) -> Result<(), Refusal>
    ensures { Readable.meaning result ≡ Spec.request_fault (record { samples = samples; realizations = realizations; seed = seed; horizon = horizon }) }
{
    if !(2..=1024).contains(&samples) {
        return Err(Refusal::BadSamples);
    }
    if !(1..=65_535).contains(&realizations) {
        return Err(Refusal::BadRealizations);
    }
    if 0.0 < horizon && horizon <= MOST_HORIZON {
        return Ok(());
    }
    Err(Refusal::BadHorizon)
}

// 11 where one of three tables has less than so many cells.
pub fn tables_fault(cells: usize, mean: usize, deviation: usize, path: usize) -> Result<(), Refusal>
    ensures { Readable.meaning result ≡ Spec.tables_fault cells mean deviation path }
{
    if mean < cells {
        return Err(Refusal::ShortTable);
    }
    if deviation < cells {
        return Err(Refusal::ShortTable);
    }
    if path < cells {
        return Err(Refusal::ShortTable);
    }
    Ok(())
}

// The seed of path k: the seed given, or 1 for seed 0, and k more modulo 2^64.
pub fn seed_of(seed: u64, k: u64) -> u64
    ensures { result ≡ Spec.seed_of seed k }
{
    seed.max(1).wrapping_add(k)
}

// The interval of the grid.
pub fn interval(samples: u32, horizon: f64) -> f64
    ensures { result ≡ Spec.interval samples horizon }
{
    if samples == 0 {
        return horizon / 0.0;
    }
    horizon / ((samples - 1) as f64)
}

// Writes the first instants of the grid of that interval, so many of them or as many as there is room for.
pub fn fill_grid(samples: u32, width: f64, instants: &mut [f64])
    ensures { instants.new ≡ Front.by_number (Spec.instant width) 0 samples instants.old }
{
    let n = instants.len();
    for i in 0..samples {
        let c = i as usize;
        if n <= c {
            return;
        }
        instants[c] = (i as f64) * width;
    }
}
