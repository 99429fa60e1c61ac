// The row of a place, as part of a lent table of means or of deviations.
#![tactic(auto)]

ghost use Rattle.std.specs.Prelude.{◌≡◌};
ghost use Rattle.net.specs.Readable as Readable;
ghost use Rattle.rows.specs.Row as Row;

use refusals::Refusal;

// Which of the two lent tables.
#[derive(Clone, Copy)]
pub enum Table {
    Mean,
    Deviation,
}

// The first of 3, 8 and 11 that applies to a row of the table of so many cells.
fn fault_of(place: usize, places: usize, samples: usize, cells: usize) -> Result<(), Refusal>
    ensures { Readable.meaning result ≡ Row.fault_of place places samples cells }
{
    if places <= place || 32 < places {
        return Err(Refusal::NoSuchPlace);
    }
    if !(2..=1024).contains(&samples) {
        return Err(Refusal::BadSamples);
    }
    if cells < places * samples {
        return Err(Refusal::ShortTable);
    }
    Ok(())
}

// By which number, if by any, the row function turns these down.
pub fn row_fault<'a>(
    mean: &'a [f64],
    deviation: &'a [f64],
    place: usize,
    places: usize,
    samples: usize,
    which: Table,
) -> Result<(), Refusal>
    ensures { Readable.meaning result ≡ Row.row_fault place places samples (Row.named which mean.now deviation.now) }
{
    match which {
        Table::Mean => fault_of(place, places, samples, mean.len()),
        Table::Deviation => fault_of(place, places, samples, deviation.len()),
    }
}

// The row of a place of a table; an empty part where fault_of has a number.
fn part<'a>(table: &'a [f64], place: usize, places: usize, samples: usize) -> &'a [f64]
    ensures { result.now ≡ Row.row_of place places samples table.now }
{
    if let Err(_) = fault_of(place, places, samples, table.len()) {
        return &table[0..0];
    }
    let from = place * samples;
    let to = from + samples;
    &table[from..to]
}

// The row of a place, as part of the table named; an empty part where row_fault has a number.
pub fn row<'a>(
    mean: &'a [f64],
    deviation: &'a [f64],
    place: usize,
    places: usize,
    samples: usize,
    which: Table,
) -> &'a [f64]
    ensures { result.now ≡ Row.row_of place places samples (Row.named which mean.now deviation.now) }
{
    match which {
        Table::Mean => part(mean, place, places, samples),
        Table::Deviation => part(deviation, place, places, samples),
    }
}
