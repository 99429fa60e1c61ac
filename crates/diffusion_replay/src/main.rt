// Plays a batch of diffusions. Standard input has a case after the other: the net (see replay_io), the samples, the realizations, the seed, and the
// horizon by its bits. One line is written for each case: `averaged` and 1 where there are deviations, else 0; or `gated` with the reads, the inhibitors,
// the takes that are not kinetic, the bounded places as a mask, and 1 where a transition is delayed; or `refused` with the number; or `stopped` with the
// number and the path's; then, for the means, the deviations and the last path, the answer's cells by their bits, with the one behind them. Each table
// has 2,048 cells of 7.
#![tactic(auto)]

use gates::Gates;
use net_text::float_of;
use replay_io::{next_number, number, read_net, shown, write, write_cells, write_number};
use sde::DiffusionAnswer;
use std::io::{self, Read};

fn write_gates(rt: &impl Print, g: Gates) -> io::Result<()> {
    write_number(rt, g.reads)?;
    write_number(rt, g.inhibitors)?;
    write_number(rt, g.nonkinetic)?;
    write_number(rt, g.bounded)?;
    write_number(rt, u64::from(g.delayed))
}

fn write_answer(rt: &impl Print, answer: DiffusionAnswer) -> io::Result<()> {
    match answer {
        DiffusionAnswer::Averaged(deviates) => {
            write(rt, b"averaged")?;
            write_number(rt, u64::from(deviates))
        }
        DiffusionAnswer::Gated(g) => {
            write(rt, b"gated")?;
            write_gates(rt, g)
        }
        DiffusionAnswer::TurnedDown(c) => {
            write(rt, b"refused")?;
            write_number(rt, c.number())
        }
        DiffusionAnswer::Stopped(c, k) => {
            write(rt, b"stopped")?;
            write_number(rt, c.number())?;
            write_number(rt, k)
        }
    }
}

fn play(rt: &impl Print, input: &mut impl Read, places: usize) -> io::Result<()> {
    let net = read_net(input, places);
    let samples = number(input);
    let realizations = number(input);
    let seed = number(input);
    let horizon = float_of(number(input));
    let mut mean = [7.0f64; 2048];
    let mut deviation = [7.0f64; 2048];
    let mut path = [7.0f64; 2048];
    let answer = sde::diffuse(
        &net.lent(),
        samples,
        realizations,
        seed,
        horizon,
        &mut mean,
        &mut deviation,
        &mut path,
    );
    write_answer(rt, answer)?;
    let cells = shown(places, samples as usize);
    write_cells(rt, cells, &mean)?;
    write_cells(rt, cells, &deviation)?;
    write_cells(rt, cells, &path)?;
    write(rt, b"\n")
}

fn main(rt: HostRuntime) -> io::Result<()> {
    let mut input = rt.stdin();
    for _ in 0..u64::MAX {
        let Some(places) = next_number(&mut input) else {
            return Ok(());
        };
        play(&rt, &mut input, places as usize)?;
    }
    Ok(())
}
