// Asks whether the fault side can force a count. Arguments: SIDES, a letter a transition, f for the fault side and r for recovery; PLACE, a label or a
// number, of which a label goes first; COUNT; TURNS. Standard input has a net text. One line is written: (game no POSITIONS), (game already POSITIONS),
// (game pass POSITIONS), (game fires TRANSITION POSITIONS), or (refused NUMBER LINE), with line 0 where the game itself is turned down. Arguments that
// are missing, too long or no numbers are spoken of on standard error, and nothing else is.
#![tactic(auto)]

use game::{FaultFound, First};
use net::Net;
use net_io::arguments::{number_argument, number_of};
use net_io::{read_full, say, text_room, write_refused};
use refusals::Refusal;
use std::env::Env;

// That the line cannot be written goes unsaid.
fn write_answer(rt: &HostRuntime, answer: Result<FaultFound, Refusal>) {
    match answer {
        Err(c) => write_refused(rt, c.number(), 0),
        Ok(r) => {
            let examined = r.examined;
            let _ = match r.first {
                None => println!(rt; "(game no {examined})"),
                Some(First::Already) => println!(rt; "(game already {examined})"),
                Some(First::Passes) => println!(rt; "(game pass {examined})"),
                Some(First::Fires(j)) => println!(rt; "(game fires {j} {examined})"),
            };
        }
    }
}

// The place with this label, else the place with this number, else 32, which no net has.
fn place_of(net: &Net, name: &[u8]) -> usize {
    for p in 0..net.places {
        if net::label_of(&net.label, &net.lengths, p) == name {
            return p;
        }
    }
    match number_of(name) {
        Some(n) => n as usize,
        None => 32,
    }
}

// The number of a letter's side; 2, which no side has, for any other letter.
fn side(letter: u8) -> u64 {
    match letter {
        b'f' => 0,
        b'r' => 1,
        _ => 2,
    }
}

fn search(rt: &HostRuntime, net: &Net, letters: &[u8], name: &[u8], count: u64, turns: u64) {
    let mut sides = [0u64; 65];
    for (s, letter) in sides.iter_mut().zip(letters) {
        *s = side(*letter);
    }
    if letters.len() <= 65 {
        let answer = game::game(
            &net.lent(),
            &sides[..letters.len()],
            place_of(net, name),
            count,
            turns,
        );
        write_answer(rt, answer);
    }
}

// Reads the net and asks. A text of more than 8,192 bytes is too long, and known by one byte more.
fn read_and_search(rt: &HostRuntime, letters: &[u8], name: &[u8], count: u64, turns: u64) {
    let mut text = text_room();
    let t = read_full(&mut rt.stdin(), &mut text);
    match net_text::read_net(&text[..t]) {
        Ok(read) => search(rt, &read.net, letters, name, count, turns),
        Err(down) => write_refused(rt, down.refusal.number(), down.line),
    }
}

fn usage(rt: &HostRuntime) {
    say(rt, b"usage: gamerun SIDES PLACE COUNT TURNS <NET\n");
}

fn main(rt: HostRuntime) {
    let mut letters = [0u8; 65];
    let Ok(n) = rt.arg(1, &mut letters) else {
        usage(&rt);
        return;
    };
    let mut name = [0u8; 20];
    let Ok(m) = rt.arg(2, &mut name) else {
        usage(&rt);
        return;
    };
    match (number_argument(&rt, 3), number_argument(&rt, 4)) {
        (Some(count), Some(turns)) => {
            read_and_search(&rt, &letters[..n], &name[..m], count, turns)
        }
        _ => usage(&rt),
    }
}
