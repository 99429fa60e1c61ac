// The lines of a result. Each is written whole into a lent buffer, or not at all where it does not fit: its length is worked out first.
#![tactic(auto)]

ghost use Rattle.std.specs.Prelude.{Some, ◌≡◌, ◌+◌, ◌*◌, ◌≤◌, leb, length};
ghost use Rattle.text.specs.Buffer.{written};
ghost use Rattle.result_text.specs.Lines.{result_line, refused_line, row_line, mean_line, dev_line};
ghost use Rattle.result_text.specs.Parts.{then_cell, then_cells};

// One float behind a space.
fn put_cell(out: &mut [u8], at: usize, x: f64) -> Option<usize>
    ensures { (out.new, result) ≡ then_cell (out.old, Some at) x }
{
    let spaced = text::put_bytes(out, at, b" ")?;
    text::put_float(out, spaced, x)
}

fn put_cells(out: &mut [u8], at: usize, row: &[f64]) -> Option<usize>
    ensures { (out.new, result) ≡ then_cells (out.old, Some at) row.now }
{
    let mut end = at;
    for x in row {
        end = put_cell(out, end, *x)?;
    }
    Some(end)
}

// Whether a line of a row fits: head bytes beside the cells, 17 bytes a cell. The line's length is not formed: it may not fit.
fn row_fits(len: usize, at: usize, head: usize, count: usize) -> bool
    ensures { result ≡ leb (at + (head + 17 * count)) len }
{
    at <= len && head <= len - at && count <= (len - at - head) / 17
}

// A line of a row. The word is short: the length of what stands beside the cells can then be formed.
fn row_line(out: &mut [u8], at: usize, word: &[u8], label: &[u8], row: &[f64]) -> Option<usize>
    requires { length word.now ≤ 6 }
    ensures { (out.new, result) ≡ written out.old at (row_line word.now label.now row.now) }
{
    let head = word.len() + label.len() + 2;
    if !row_fits(out.len(), at, head, row.len()) {
        return None;
    }
    let first = text::put_bytes(out, at, word)?;
    let named = text::put_bytes(out, first, label)?;
    let filled = put_cells(out, named, row)?;
    text::put_bytes(out, filled, b")\n")
}

// The means of the place with this label.
pub fn mean_line(out: &mut [u8], at: usize, label: &[u8], row: &[f64]) -> Option<usize>
    ensures { (out.new, result) ≡ written out.old at (mean_line label.now row.now) }
{
    row_line(out, at, b"(mean ", label, row)
}

// The deviations of the place with this label.
pub fn dev_line(out: &mut [u8], at: usize, label: &[u8], row: &[f64]) -> Option<usize>
    ensures { (out.new, result) ≡ written out.old at (dev_line label.now row.now) }
{
    row_line(out, at, b"(dev ", label, row)
}

// Places, samples, realizations.
#[tactic(auto, using(text::proofs::Digits::decimal_short))]
pub fn result_line(
    out: &mut [u8],
    at: usize,
    places: u64,
    samples: u64,
    realizations: u64,
) -> Option<usize>
    ensures { (out.new, result) ≡ written out.old at (result_line places samples realizations) }
{
    let p = text::decimal_length(places);
    let s = text::decimal_length(samples);
    let n = text::decimal_length(realizations);
    if !text::has_room(out.len(), at, p + s + n + 12) {
        return None;
    }
    let a = text::put_bytes(out, at, b"(result ")?;
    let b = text::put_decimal(out, a, places)?;
    let c = text::put_bytes(out, b, b" ")?;
    let d = text::put_decimal(out, c, samples)?;
    let e = text::put_bytes(out, d, b" ")?;
    let f = text::put_decimal(out, e, realizations)?;
    text::put_bytes(out, f, b")\n")
}

// A refusal's number and line.
#[tactic(auto, using(text::proofs::Digits::decimal_short))]
pub fn refused_line(out: &mut [u8], at: usize, number: u64, line: u64) -> Option<usize>
    ensures { (out.new, result) ≡ written out.old at (refused_line number line) }
{
    let n = text::decimal_length(number);
    let l = text::decimal_length(line);
    if !text::has_room(out.len(), at, n + l + 12) {
        return None;
    }
    let a = text::put_bytes(out, at, b"(refused ")?;
    let b = text::put_decimal(out, a, number)?;
    let c = text::put_bytes(out, b, b" ")?;
    let d = text::put_decimal(out, c, line)?;
    text::put_bytes(out, d, b")\n")
}
