// Asks whether weights balance a net. The argument WEIGHTS has a whole number a place, in the order of the place lines, with commas between them; standard
// input has a net text. One line is written: (balance yes), (balance no TRANSITION), or (refused NUMBER LINE), with line 0 where the weights are turned down.
// A list that is missing, of more than 1,024 bytes or not of whole numbers, and an input that cannot be read, are spoken of on standard error, and nothing
// else is.
#![tactic(auto)]

use net_io::arguments::{end_of, number_of};
use net_io::{read_input, say, text_room, write_refused};
use refusals::Refusal;
use std::env::Env;

// That the line cannot be written goes unsaid.
fn write_answer(rt: &HostRuntime, answer: Result<Option<usize>, Refusal>) {
    match answer {
        Ok(None) => {
            let _ = println!(rt; "(balance yes)");
        }
        Ok(Some(j)) => {
            let _ = println!(rt; "(balance no {j})");
        }
        Err(c) => write_refused(rt, c.number(), 0),
    }
}

// How many weights the list has, those past the 33rd left out: no net has 33 places. None where it is no list of whole numbers.
fn read_weights(list: &[u8], weights: &mut [u64; 33]) -> Option<usize> {
    let mut n = 0;
    let mut from = 0;
    // a number is as long as it is: no range has where the next begins
    while from <= list.len() {
        let end = end_of(list, from, b',');
        let w = number_of(&list[from..end])?;
        if n < 33 {
            weights[n] = w;
            n += 1;
        }
        from = end + 1;
    }
    Some(n)
}

fn ask(rt: &HostRuntime, text: &[u8], weights: &[u64]) {
    match net_text::read_net(text) {
        Ok(read) => write_answer(rt, balance::balance(&read.net.lent(), weights)),
        Err(down) => write_refused(rt, down.refusal.number(), down.line),
    }
}

fn read_and_ask(rt: &HostRuntime, weights: &[u64]) {
    let mut text = text_room();
    match read_input(rt, &mut text) {
        Ok(t) => ask(rt, &text[..t], weights),
        Err(_) => say(rt, b"balancerun: standard input cannot be read\n"),
    }
}

fn usage(rt: &HostRuntime) {
    say(
        rt,
        b"usage: balancerun WEIGHTS <NET, whole numbers with commas between them, of at most 1,024 bytes\n",
    );
}

fn main(rt: HostRuntime) {
    let mut list = [0u8; 1024];
    let Ok(n) = rt.arg(1, &mut list) else {
        usage(&rt);
        return;
    };
    let mut weights = [0u64; 33];
    match read_weights(&list[..n], &mut weights) {
        Some(count) if count <= 33 => read_and_ask(&rt, &weights[..count]),
        _ => usage(&rt),
    }
}
