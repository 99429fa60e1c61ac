// The renaming list as an argument has it: pairs of old and new transition numbers, as 3:0,5:1, or - where there is none.
ghost use Rattle.std.specs.Prelude.{◌≤◌, length};

use net_io::arguments::{end_of, number_of};

// The pair that a part of the list is: two numbers with a colon between them.
fn pair_of(part: &[u8]) -> Option<[u64; 2]> {
    let middle = end_of(part, 0, b':');
    if middle == part.len() {
        return None;
    }
    let old = number_of(&part[..middle])?;
    let new = number_of(&part[middle + 1..])?;
    Some([old, new])
}

// The words of a list of pairs, those past the 65th left out: a net has 64 transitions, so of 65 pairs one is out of range or a number is listed twice.
fn read_pairs(list: &[u8], words: &mut [u64; 130]) -> Option<usize> {
    let mut n = 0;
    let mut from = 0;
    // a pair is as long as it is: no range has where the next begins
    while from <= list.len() {
        let end = end_of(list, from, b',');
        let pair = pair_of(&list[from..end])?;
        if n < 129 {
            words[n] = pair[0];
            words[n + 1] = pair[1];
            n += 2;
        }
        from = end + 1;
    }
    Some(n)
}

// How many words the list has as the argument has it, if it is one.
pub fn list_of(list: &[u8], words: &mut [u64; 130]) -> Option<usize> {
    if list == b"-".as_slice() {
        return Some(0);
    }
    read_pairs(list, words)
}
