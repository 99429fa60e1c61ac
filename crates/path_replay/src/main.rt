// Plays a batch of paths. Standard input has a case after the other: the net (see replay_io), the four words of the generator, the step limit, the
// number of instants, and each by its bits. One line is written for each case: the end, the steps, the settled instants, the peak, the rounded
// steps, the generator's words, and the answer's cells by their bits, with the one behind them. The table has 2,048 cells of 7. No more is read than 2,048
// instants.
#![tactic(auto)]

use replay_io::{
    next_number, number, read_generator, read_instants, read_net, shown, size, write, write_cells,
    write_end, write_generator, write_number,
};
use ssa::PathAnswer;
use std::io::{self, Read};

fn write_answer(rt: &impl Print, r: PathAnswer) -> io::Result<()> {
    write_end(rt, r.end)?;
    write_number(rt, r.steps)?;
    write_number(rt, r.settled)?;
    write_number(rt, r.peak)?;
    write_number(rt, r.rounded)?;
    write_generator(rt, r.generator)
}

fn play(rt: &impl Print, input: &mut impl Read, places: usize) -> io::Result<()> {
    let net = read_net(input, places);
    let generator = read_generator(input);
    let limit = number(input);
    let n = size(input);
    let mut instants = [0.0f64; 2048];
    read_instants(input, n, &mut instants);
    let mut table = [7.0f64; 2048];
    if n <= 2048 {
        let r = ssa::path(&net.lent(), generator, &instants[..n], limit, &mut table);
        write_answer(rt, r)?;
    }
    write_cells(rt, shown(places, n), &table)?;
    write(rt, b"\n")
}

fn main(rt: HostRuntime) -> io::Result<()> {
    let mut input = rt.stdin();
    for _ in 0..u64::MAX {
        let Some(places) = next_number(&mut input) else {
            return Ok(());
        };
        play(&rt, &mut input, places as usize)?;
    }
    Ok(())
}
