// What `pathrun` does, from bytes to bytes. specs/Pathrun says what it prints.
#![tactic(auto)]

ghost use Rattle.std.specs.Prelude.{◌≡◌, ◌≤◌, length};
ghost use Rattle.std.proofs.Math.Option.{none};
ghost use Rattle.net.specs.Readable.{readable, labels, fault};
ghost use Rattle.net_text.specs.Position.{run_of};
ghost use Rattle.pathrun_text.specs.Pathrun as Pathrun;
ghost use Rattle.pathrun_text.specs.Printing.{in_front};

use net::Net;
use net_text::RunLine;
use ssa::EnsembleAnswer;

mod lines;

// A buffer of so many bytes holds every output.
pub const LONGEST: usize = 71240;

// A table of the ensemble's call.
fn table() -> [f64; 2048]
    ensures { result ≡ Pathrun.table }
{
    [0.0; 2048]
}

// Plays the ensemble that a text asks for, and prints its answer.
fn run(net: Net, asked: RunLine, out: &mut [u8]) -> usize
    requires { (Pathrun.longest ≤ length out.old) × (fault net ≡ none) }
    ensures { (out.new, result) ≡ in_front out.old (Pathrun.ran (readable net) (labels net) (Pathrun.request (run_of asked))) }
{
    let mut mean = table();
    let mut deviation = table();
    let mut path = table();
    let samples = asked.samples;
    let realizations = asked.realizations;
    let lent = net.lent();
    let answer = ssa::ensemble(
        &lent,
        samples,
        realizations,
        asked.seed,
        net_text::float_of(asked.horizon),
        &mut mean,
        &mut deviation,
        &mut path,
    );
    match answer {
        EnsembleAnswer::TurnedDown(c) => lines::refused(out, c.number(), 0),
        EnsembleAnswer::Stopped(c, _) => lines::refused(out, c.number(), 0),
        EnsembleAnswer::Averaged(_, _) => {
            lines::result(
                out,
                &lent,
                samples as usize,
                realizations,
                &mean,
                &deviation,
            )
        }
    }
}

// Prints into a lent buffer what the net text asks for, and answers how many bytes that is. A buffer of fewer than LONGEST bytes is left as it is, and
// the answer is 0.
pub fn played(text: &[u8], out: &mut [u8]) -> usize
    ensures { (out.new, result) ≡ Pathrun.printed_into out.old (Pathrun.output text.now) }
{
    if out.len() < LONGEST {
        return 0;
    }
    match net_text::read_net(text) {
        Ok(read) => run(read.net, read.run, out),
        Err(down) => lines::refused(out, down.refusal.number(), down.line),
    }
}
