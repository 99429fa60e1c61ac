// The tests of a place's label: 17, absent or malformed, and 18, already used.
ghost use Rattle.std.specs.Prelude.{◌≡◌, ◌*◌, ◌≤◌, length};
ghost use Rattle.text.specs.Text.{same};
ghost use Rattle.net.specs.Tests as Tests;
ghost use Rattle.net.specs.Labels as Labels;

use crate::{bounds, label_of};

pub const MOST_BYTES: usize = 16;

// A letter a to z, a digit or a hyphen.
fn label_byte(b: u8) -> bool
    ensures { result ≡ Labels.label_byte b }
{
    matches!(b, b'a'..=b'z' | b'0'..=b'9' | b'-')
}

// Is it 1 to 16 of these bytes?
pub fn label_fits(label: &[u8]) -> bool
    ensures { result ≡ Labels.label_fits label.now }
{
    if label.is_empty() || MOST_BYTES < label.len() {
        return false;
    }
    label.iter().all(|&b| label_byte(b))
}

// Are the two, of N to 2 N bytes, the same? Their first N and their last N are all of them.
fn same_ends<const N: usize>(a: &[u8], b: &[u8]) -> bool
    requires { (length a.now ≡ length b.now) × (N ≤ length a.now) × (length a.now ≤ 2 * N) }
    ensures { result ≡ same a.now b.now }
{
    match (
        a.split_first_chunk::<N>(),
        b.split_first_chunk::<N>(),
        a.split_last_chunk::<N>(),
        b.split_last_chunk::<N>(),
    ) {
        (Some((first, _)), Some((other, _)), Some((_, last)), Some((_, end))) => {
            first == other && last == end
        }
        _ => a == b,
    }
}

// Are the two the same? Most short ones that differ do so in their last byte, as q0 and q1: it is looked at before the others.
fn alike(a: &[u8], b: &[u8]) -> bool
    ensures { result ≡ same a.now b.now }
{
    let n = a.len();
    if n != b.len() {
        return false;
    }
    if n == 0 {
        return true;
    }
    match n {
        1..=3 => a[n - 1] == b[n - 1] && a[0] == b[0] && a[n / 2] == b[n / 2],
        4..=7 => same_ends::<4>(a, b),
        8..=16 => same_ends::<8>(a, b),
        _ => a == b,
    }
}

// Is this the label of place q? A length that is not its own tells so before the label is cut out.
fn labelled<'a>(label: &'a [u8; 512], lengths: &'a [usize; 32], q: usize, own: &[u8]) -> bool
    ensures { result ≡ same own.now (Labels.label_at label.now lengths.now q) }
{
    let n = own.len();
    if 0 < n && q < bounds::MOST_PLACES && lengths[q] != n {
        return false;
    }
    alike(own, label_of(label, lengths, q))
}

// Does a place before p have the label of p?
pub fn used_before<'a>(label: &'a [u8; 512], lengths: &'a [usize; 32], p: usize) -> bool
    ensures { result ≡ Tests.any (same (Labels.label_at label.now lengths.now p))
        (Labels.labels_from label.now lengths.now 0 p) }
{
    let own = label_of(label, lengths, p);
    for q in 0..p {
        if labelled(label, lengths, q, own) {
            return true;
        }
    }
    false
}
