// Reads a net text. specs/Forms and specs/Reading say what a text means, specs/Filled which record holds its net, specs/Answered what the answer says.
#![tactic(auto)]

ghost use Rattle.std.specs.Prelude.{◌≡◌};
ghost use Rattle.std.specs.Float.{binary64};
ghost use Rattle.std.specs.Float.Ieee.{of_bits};
ghost use Rattle.net_text.specs.Answered as Answered;

use refusals::Refusal;

mod form;
mod order;
mod scan;

// The run line: samples, realizations and seed of an ensemble, and the bits of its horizon. They are tested there and not here.
#[derive(Clone, Copy)]
pub struct RunLine {
    pub samples: u64,
    pub realizations: u64,
    pub seed: u64,
    pub horizon: u64,
}

// The float of 64 bits, as a text has it; all patterns of a NaN are one.
pub fn float_of(bits: u64) -> f64
    ensures { result ≡ of_bits binary64 bits }
{
    if 0x7FF0_0000_0000_0000 < bits % 0x8000_0000_0000_0000 {
        return 0.0 / 0.0;
    }
    f64::from_bits(bits)
}

// What a text gives: its net and its run line.
#[derive(Clone, Copy)]
pub struct NetText {
    pub net: net::Net,
    pub run: RunLine,
}

// Why a text is turned down, and at which line: 0 for the text as a whole.
#[derive(Clone, Copy)]
pub struct TurnedDown {
    pub refusal: Refusal,
    pub line: u64,
}

// Reads a text of any bytes and any length. Every slot of the net is fixed: arcs stand in line order, and slots past the counts are 0. A text that
// is turned down gives no net.
pub fn read_net(text: &[u8]) -> Result<NetText, TurnedDown>
    ensures { Answered.NetRead text.now result }
{
    if 8192 < text.len() {
        return Err(TurnedDown {
            refusal: Refusal::BadSize,
            line: 0,
        });
    }
    let mut net = net::empty();
    let run = order::read_lines(text, &mut net)?;
    Ok(NetText { net: net, run: run })
}
