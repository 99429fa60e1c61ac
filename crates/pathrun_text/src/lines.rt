// The output's lines, one behind the other.
ghost use Rattle.std.specs.Prelude.{◌≡◌, ◌*◌, ◌≤◌, length, Some};
ghost use Rattle.net.specs.Readable.{labels};
ghost use Rattle.net.specs.Record.{net_of};
ghost use Rattle.text.specs.Buffer.{written};
ghost use Rattle.result_text.specs.Lines.{refused_line, printed};
ghost use Rattle.pathrun_text.specs.Pathrun.{rows, longest, table_cells};
ghost use Rattle.pathrun_text.specs.Printing as Printing;

use net::LentNet;

// A refusal's line in front.
pub fn refused(out: &mut [u8], number: u64, line: u64) -> usize
    requires { longest ≤ length out.old }
    ensures { (out.new, result) ≡ Printing.in_front out.old (refused_line number line) }
{
    result_text::refused_line(out, 0, number, line).unwrap_or(0)
}

fn put_line(out: &mut [u8], at: usize, deviates: bool, label: &[u8], row: &[f64]) -> Option<usize>
    ensures { (out.new, result) ≡ written out.old at (Printing.line_of deviates label.now row.now) }
{
    if deviates {
        return result_text::dev_line(out, at, label, row);
    }
    result_text::mean_line(out, at, label, row)
}

// The lines of a table's rows.
fn put_lines(
    out: &mut [u8],
    at: usize,
    deviates: bool,
    net: &LentNet,
    samples: usize,
    table: &[f64],
) -> Option<usize>
    requires { net.now.places * samples ≤ length table.now }
    ensures { (out.new, result) ≡ Printing.then_lines deviates (out.old, Some at) (labels (net_of net.now)) (rows net.now.places samples table.now) }
{
    let mut end = at;
    let mut rest = table;
    for p in 0..net.places {
        let (row, later) = rest.split_at(samples);
        let named = net::label_of(net.label, net.lengths, p);
        end = put_line(out, end, deviates, named, row)?;
        rest = later;
    }
    Some(end)
}

// The lines of a result, all of which fit.
fn put_result(
    out: &mut [u8],
    net: &LentNet,
    samples: usize,
    realizations: u64,
    mean: &[f64],
    deviation: &[f64],
) -> Option<usize>
    requires { (longest ≤ length out.old) × (net.now.places ≤ 32) × (samples ≤ 1024) × (net.now.places * samples ≤ table_cells) × (length mean.now ≡ table_cells) × (length deviation.now ≡ table_cells) }
    ensures { (out.new, result) ≡ written out.old 0 (printed net.now.places samples realizations (labels (net_of net.now)) (rows net.now.places samples mean.now) (rows net.now.places samples deviation.now)) }
{
    let head = result_text::result_line(out, 0, net.places as u64, samples as u64, realizations)?;
    let means = put_lines(out, head, false, net, samples, mean)?;
    if 1 < realizations {
        return put_lines(out, means, true, net, samples, deviation);
    }
    Some(means)
}

// The lines of a result in front.
pub fn result(
    out: &mut [u8],
    net: &LentNet,
    samples: usize,
    realizations: u64,
    mean: &[f64],
    deviation: &[f64],
) -> usize
    requires { (longest ≤ length out.old) × (net.now.places ≤ 32) × (samples ≤ 1024) × (net.now.places * samples ≤ table_cells) × (length mean.now ≡ table_cells) × (length deviation.now ≡ table_cells) }
    ensures { (out.new, result) ≡ Printing.in_front out.old (printed net.now.places samples realizations (labels (net_of net.now)) (rows net.now.places samples mean.now) (rows net.now.places samples deviation.now)) }
{
    put_result(out, net, samples, realizations, mean, deviation).unwrap_or(0)
}
