// Reads a net text from standard input and writes a line that says why the diffusion has no answer for its net, the text of `reason::reason`; an empty line
// where nothing stands against it. For a text that is turned down it writes the line that pathrun prints. The run line is not tested. Standard output has
// nothing else: that the input cannot be read or the output cannot be written is said on standard error.
#![tactic(auto)]

use net_io::{read_input, say, text_room, write_front};

fn show(rt: &HostRuntime, out: &[u8], n: usize) {
    if !write_front(rt, out, n) {
        say(rt, b"whyrun: standard output cannot be written\n");
    }
}

fn show_refused(rt: &HostRuntime, number: u64, line: u64) {
    let mut out = [0u8; 64];
    if let Some(n) = result_text::refused_line(&mut out, 0, number, line) {
        show(rt, &out, n);
    }
}

fn show_reason(rt: &HostRuntime, net: net::Net) {
    let mut out = [0u8; 2080];
    match reason::reason(&net.lent(), &mut out) {
        Ok(n) => {
            show(rt, &out, n);
            show(rt, b"\n", 1);
        }
        Err(c) => show_refused(rt, c.number(), 0),
    }
}

fn ask(rt: &HostRuntime, text: &[u8]) {
    match net_text::read_net(text) {
        Ok(read) => show_reason(rt, read.net),
        Err(down) => show_refused(rt, down.refusal.number(), down.line),
    }
}

fn main(rt: HostRuntime) {
    let mut text = text_room();
    match read_input(&rt, &mut text) {
        Ok(n) => ask(&rt, &text[..n]),
        Err(_) => say(&rt, b"whyrun: standard input cannot be read\n"),
    }
}
