// Plays a batch of paths that are halted and carried. Standard input has a case after the other: the old net (see replay_io), the four words of the generator,
// the step limit, the number of steps named, the number of instants, and each by its bits; then the places of the new net and the net, the number of words of the
// renaming list, at most 128, and each, and the number of steps that the carrying call names. Two lines are written for each case, of the
// naming call and of the carrying call, which is handed what the first gives: the end, the settled instants, where the path stands (steps, limit, peak,
// rounded steps, recorded instants, clock, generator, 32 counts, the number of timers, and each by its completion time, transition and taken weight), and
// the answer's cells by their bits, with the one behind them. The table has 2,048 cells of 7. No more is read than 2,048 instants.
#![tactic(auto)]

use replay_io::{
    next_number, number, read_generator, read_instants, read_net, shown, size, write, write_cells,
    write_end, write_float, write_generator, write_number,
};
use ssa::{Halted, Onward};
use std::io::{self, Read};
use timers::queue::Queue;

fn read_pairs(input: &mut impl Read, n: usize, pairs: &mut [u64; 128]) {
    for i in 0..n.min(128) {
        pairs[i] = number(input);
    }
}

fn write_counts(rt: &impl Print, counts: &[u64; 32]) -> io::Result<()> {
    for n in counts {
        write_number(rt, *n)?;
    }
    Ok(())
}

fn write_timers(rt: &impl Print, q: &Queue) -> io::Result<()> {
    write_number(rt, q.len as u64)?;
    for i in 0..q.len.min(256) {
        write_float(rt, q.ats[i])?;
        write_number(rt, q.whos[i] as u64)?;
        write_number(rt, q.takens[i])?;
    }
    Ok(())
}

fn write_path(rt: &impl Print, s: &Halted) -> io::Result<()> {
    write_number(rt, s.steps)?;
    write_number(rt, s.limit)?;
    write_number(rt, s.peak)?;
    write_number(rt, s.rounded)?;
    write_number(rt, s.recorded as u64)?;
    write_float(rt, s.clock)?;
    write_generator(rt, s.generator)?;
    write_counts(rt, &s.counts)?;
    write_timers(rt, &s.timers)
}

fn write_answer(rt: &impl Print, r: &Onward) -> io::Result<()> {
    write_end(rt, r.end)?;
    write_number(rt, r.settled)?;
    write_path(rt, &r.state)
}

fn play(rt: &impl Print, input: &mut impl Read, places: usize) -> io::Result<()> {
    let old = read_net(input, places);
    let generator = read_generator(input);
    let limit = number(input);
    let named = number(input);
    let n = size(input);
    let mut grid = [0.0f64; 2048];
    read_instants(input, n, &mut grid);
    let instants = &grid[..n.min(2048)];
    let mut table = [7.0f64; 2048];
    let halted = ssa::path_until(&old.lent(), generator, instants, limit, named, &mut table);
    write_answer(rt, &halted)?;
    write_cells(rt, shown(places, n), &table)?;
    write(rt, b"\n")?;
    let new_places = size(input);
    let new = read_net(input, new_places);
    let k = size(input);
    let mut pairs = [0u64; 128];
    read_pairs(input, k, &mut pairs);
    let more = number(input);
    let carried = ssa::carry(
        &old.lent(),
        &new.lent(),
        &pairs[..k.min(128)],
        halted.state,
        instants,
        more,
        &mut table,
    );
    write_answer(rt, &carried)?;
    write_cells(rt, shown(places, n), &table)?;
    write(rt, b"\n")
}

fn main(rt: HostRuntime) -> io::Result<()> {
    let mut input = rt.stdin();
    for _ in 0..u64::MAX {
        let Some(places) = next_number(&mut input) else {
            return Ok(());
        };
        play(&rt, &mut input, places as usize)?;
    }
    Ok(())
}
