// The text, put together in a buffer of its own and then written into the lent one, whole or not at all.
ghost use Rattle.std.specs.Prelude.{◌≡◌, true, map, Some};
ghost use Rattle.text.specs.Buffer.{written};
ghost use Rattle.net.specs.Labels.{label_at};
ghost use Rattle.gates.specs.Gated.{bits_from, gates_of};
ghost use Rattle.reason.specs.Reasons.{reason_text};
ghost use Rattle.reason.specs.Call.{reasons, answered, told};
ghost use Rattle.reason.specs.Parts as Parts;

use gates::Gates;
use net::LentNet;
use refusals::Refusal;

// What stands in front of a sentence.
#[tactic(auto, unfolding(crate::specs::Reasons::opening))]
fn put_lead(out: &mut [u8], at: usize) -> Option<usize>
    ensures { (out.new, result) ≡ written out.old at (Parts.lead at) }
{
    if at == 0 {
        return text::put_bytes(
            out,
            at,
            b"this model constrains firing in ways continuous diffusion cannot express, so the SDE would silently model an unconstrained system. Use the discrete engine (Simulate). Specifically: ",
        );
    }
    text::put_bytes(out, at, b"; ")
}

// A sentence with a count, none for 0.
fn put_counted(out: &mut [u8], at: usize, n: u64, words: &[u8]) -> Option<usize>
    ensures { (out.new, result) ≡ Parts.then_counted (out.old, Some at) n words.now }
{
    if n == 0 {
        return Some(at);
    }
    let led = put_lead(out, at)?;
    let number = text::put_decimal(out, led, n)?;
    text::put_bytes(out, number, words)
}

// What stands in front of a label.
#[tactic(auto, unfolding(crate::specs::Reasons::capacity_words))]
fn put_front(out: &mut [u8], at: usize, first: bool) -> Option<usize>
    ensures { (out.new, result) ≡ Parts.then_front (out.old, Some at) first }
{
    if first {
        let led = put_lead(out, at)?;
        return text::put_bytes(out, led, b"capacity is declared on [");
    }
    text::put_bytes(out, at, b" ")
}

// The label of a place, if the place is bounded.
fn put_place(out: &mut [u8], at: usize, bounded: bool, first: bool, label: &[u8]) -> Option<usize>
    ensures { (out.new, result) ≡ Parts.then_place (out.old, Some at) bounded first label.now }
{
    if !bounded {
        return Some(at);
    }
    let led = put_front(out, at, first)?;
    text::put_bytes(out, led, label)
}

// The end of the sentence on bounded places, if it was begun.
#[tactic(auto, unfolding(crate::specs::Reasons::bound_words))]
fn put_bound(out: &mut [u8], at: usize, first: bool) -> Option<usize>
    ensures { (out.new, result) ≡ Parts.then_bound (out.old, Some at) first }
{
    if first {
        return Some(at);
    }
    text::put_bytes(
        out,
        at,
        b"] but is a post-firing bound, which has no continuous analogue",
    )
}

// The sentence on bounded places, those whose bits are set in the mask, in place order.
fn put_labels(out: &mut [u8], at: usize, mask: u64, net: &LentNet) -> Option<usize>
    ensures { (out.new, result)
        ≡ Parts.then_labels (out.old, Some at) true (map (label_at net.now.label.now net.now.lengths.now) (bits_from 0 64 mask)) }
{
    let mut end = at;
    let mut first = true;
    let mut rest = mask;
    for p in 0..64 {
        let bounded = rest % 2 == 1;
        let name = net::label_of(net.label, net.lengths, p);
        end = put_place(out, end, bounded, first, name)?;
        first &= !bounded;
        rest /= 2;
    }
    put_bound(out, end, first)
}

// The sentence on delays.
#[tactic(auto, unfolding(crate::specs::Reasons::delay_words, crate::specs::Reasons::dash))]
fn put_timed(out: &mut [u8], at: usize, delayed: bool) -> Option<usize>
    ensures { (out.new, result) ≡ Parts.then_timed (out.old, Some at) delayed }
{
    if !delayed {
        return Some(at);
    }
    let led = put_lead(out, at)?;
    text::put_bytes(
        out,
        led,
        b"a delay is a deterministic timer \xe2\x80\x94 inputs consumed at start, outputs a fixed time later \xe2\x80\x94 which mass action cannot express",
    )
}

// All sentences, from the buffer's first byte on.
#[tactic(auto, unfolding(crate::specs::Reasons::read_words, crate::specs::Reasons::inhibitor_words, crate::specs::Reasons::non_kinetic_words,))]
fn put_all(out: &mut [u8], g: Gates, net: &LentNet) -> Option<usize>
    ensures { (out.new, result)
        ≡ Parts.then_all (out.old, Some 0) (reasons (label_at net.now.label.now net.now.lengths.now) (gates_of g)) }
{
    let a = put_counted(
        out,
        0,
        g.reads,
        b" read arc(s) gate a firing without consuming; a continuous solver cannot test them",
    )?;
    let b = put_counted(
        out,
        a,
        g.inhibitors,
        b" inhibitor arc(s) block a firing above a threshold; a continuous solver cannot test them",
    )?;
    let c = put_counted(
        out,
        b,
        g.nonkinetic,
        b" non-kinetic input arc(s) gate and consume without scaling the rate; a mass-action solver has no way to omit them from the rate law",
    )?;
    let d = put_labels(out, c, g.bounded, net)?;
    put_timed(out, d, g.delayed)
}

// The text is put together apart, so that a buffer that is too short keeps every byte. 2,080 bytes hold every text: three counts of 64 bits and 64 labels of
// 16 bytes, though a net has no more than 32.
fn put_text(out: &mut [u8], g: Gates, net: &LentNet) -> Option<usize>
    ensures { (out.new, result)
        ≡ written out.old 0 (reason_text (reasons (label_at net.now.label.now net.now.lengths.now) (gates_of g))) }
{
    let mut text = [0u8; 2080];
    let n = put_all(&mut text, g, net)?;
    text::put_bytes(out, 0, &text[..n])
}

// Writes the text for what gates a net with these labels; it is empty where nothing does.
pub fn write_reason(out: &mut [u8], g: Gates, net: &LentNet) -> Result<usize, Refusal>
    ensures { (out.new, told result)
        ≡ answered out.old (reason_text (reasons (label_at net.now.label.now net.now.lengths.now) (gates_of g))) }
{
    put_text(out, g, net).ok_or(Refusal::ShortBuffer)
}
