// Reads a net text from standard input and writes what `pathrun_text::played` prints for it. Standard output has nothing else: that the input cannot be
// read or the output cannot be written is said on standard error.
#![tactic(auto)]

ghost use Rattle.std.specs.Prelude.{◌≡◌, length};

use net_io::{read_input, say, text_room, write_front};

// Room for every output.
fn output_room() -> [u8; pathrun_text::LONGEST]
    ensures { 71240 ≡ length result }
{
    [0; pathrun_text::LONGEST]
}

fn play(rt: &HostRuntime, text: &[u8]) {
    let mut out = output_room();
    let written = pathrun_text::played(text, &mut out);
    if !write_front(rt, &out, written) {
        say(rt, b"pathrun: standard output cannot be written\n");
    }
}

fn main(rt: HostRuntime) {
    let mut text = text_room();
    match read_input(&rt, &mut text) {
        Ok(n) => play(&rt, &text[..n]),
        Err(_) => say(&rt, b"pathrun: standard input cannot be read\n"),
    }
}
