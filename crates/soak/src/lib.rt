// The published soak load: a net text from a seed and two counts, the same on every bench. specs/Soak says which.
#![tactic(auto)]

ghost use Rattle.std.specs.Prelude.{◌≡◌, true, ◌<◌, length, Some, IfSome};
ghost use Rattle.rng.specs.State.{words};
ghost use Rattle.rng.specs.Xoshiro.{output, step};
ghost use Rattle.text.specs.Text.{bytes};
ghost use Rattle.text.specs.Buffer.{written};
ghost use Rattle.soak.specs.Soak as Soak;
ghost use Rattle.soak.specs.Words as Words;

use refusals::Refusal;
use rng::Xoshiro256;

// A buffer of so many bytes holds every text.
pub const LONGEST: usize = 1614;

// Seed 0 draws as 1.
fn drawn_seed(seed: u64) -> u64
    ensures { result ≡ Soak.drawn_as seed }
{
    seed.max(1)
}

fn rate_of(choice: u64) -> f64
    ensures { result ≡ Soak.rate_from choice }
{
    match choice {
        0 => 1.0,
        1 => 2.0,
        2 => 4.0,
        _ => 8.0,
    }
}

// The next raw output; the generator makes one step.
fn draw(rng: &mut Xoshiro256) -> u64
    ensures { (result ≡ output (words rng.old.s)) × (words rng.new.s ≡ step (words rng.old.s)) }
{
    let drawn = rng.next_u64();
    *rng = drawn.rng;
    drawn.value
}

fn put_place(out: &mut [u8], at: usize, initial: u64, number: u64) -> Option<usize>
    ensures { (out.new, result) ≡ Words.then_all (out.old, Some at) (Words.place_words initial number) }
{
    let word = text::put_bytes(out, at, b"(place ")?;
    let count = text::put_decimal(out, word, initial)?;
    let label = text::put_bytes(out, count, b" 0 q")?;
    let named = text::put_decimal(out, label, number)?;
    text::put_bytes(out, named, b")\n")
}

// Where all of them fit, the generator has made their choices.
fn put_places(out: &mut [u8], at: usize, rng: &mut Xoshiro256, places: u64) -> Option<usize>
    ensures told { (out.new, result) ≡ Words.then_all (out.old, Some at) (Words.places_words 0 places (words rng.old.s)) }
    ensures drawn { IfSome result (λ k. words rng.new.s ≡ Soak.after places (words rng.old.s)) }
{
    let mut end = at;
    for number in 0..places {
        let initial = draw(rng) % 10;
        end = put_place(out, end, initial, number)?;
    }
    Some(end)
}

// The place taken from and the place put to, and what stands behind each.
fn put_arcs(out: &mut [u8], at: usize, taken: u64, put: u64) -> Option<usize>
    ensures { (out.new, result) ≡ Words.then_all (out.old, Some at) (Words.arc_words taken put) }
{
    let taking = text::put_decimal(out, at, taken)?;
    let kinetic = text::put_bytes(out, taking, b" 1 1) (put ")?;
    let putting = text::put_decimal(out, kinetic, put)?;
    text::put_bytes(out, putting, b" 1))\n")
}

fn put_move(out: &mut [u8], at: usize, taken: u64, put: u64, rate: u64) -> Option<usize>
    ensures { (out.new, result) ≡ Words.then_all (out.old, Some at) (Words.move_words taken put rate) }
{
    let word = text::put_bytes(out, at, b"(move ")?;
    let rated = text::put_float(out, word, rate_of(rate))?;
    let undelayed = text::put_bytes(out, rated, b" 0000000000000000 (take ")?;
    put_arcs(out, undelayed, taken, put)
}

fn put_moves(
    out: &mut [u8],
    at: usize,
    rng: &mut Xoshiro256,
    places: u64,
    transitions: u64,
) -> Option<usize>
    requires { 0 < places }
    ensures { (out.new, result) ≡ Words.then_all (out.old, Some at) (Words.moves_words places transitions (words rng.old.s)) }
{
    let mut end = at;
    for _ in 0..transitions {
        let taken = draw(rng) % places;
        let put = draw(rng) % places;
        let rate = draw(rng) % 4;
        end = put_move(out, end, taken, put, rate)?;
    }
    Some(end)
}

fn put_run(out: &mut [u8], at: usize, seed: u64) -> Option<usize>
    ensures { (out.new, result) ≡ Words.then_all (out.old, Some at) (Words.run_words seed) }
{
    let run = text::put_bytes(out, at, b"(run 11 1 ")?;
    let seeded = text::put_decimal(out, run, seed)?;
    text::put_bytes(out, seeded, b" 4024000000000000)\n)\n")
}

fn write_all(out: &mut [u8], seed: u64, places: u64, transitions: u64) -> Option<usize>
    requires { 0 < places }
    ensures { (out.new, result) ≡ Words.then_all (written out.old 0 (bytes "(net\n")) (Words.all_the_words seed places transitions) }
{
    let mut rng = Xoshiro256::new(drawn_seed(seed));
    let head = text::put_bytes(out, 0, b"(net\n")?;
    let placed = put_places(out, head, &mut rng, places)?;
    let moved = put_moves(out, placed, &mut rng, places, transitions)?;
    put_run(out, moved, seed)
}

// Room for every text.
fn text_room() -> [u8; LONGEST]
    ensures { length result ≡ 1614 }
{
    [0; LONGEST]
}

// The text is written apart first, so that a buffer that is too short keeps every byte.
fn put_text(out: &mut [u8], seed: u64, places: u64, transitions: u64) -> Option<usize>
    requires { Soak.sized places transitions ≡ true }
    ensures { (out.new, result) ≡ written out.old 0 (Soak.soak_text seed places transitions) }
{
    let mut room = text_room();
    let n = write_all(&mut room, seed, places, transitions)?;
    text::put_bytes(out, 0, &room[..n])
}

fn sizes_fit(places: u64, transitions: u64) -> bool
    ensures { result ≡ Soak.sized places transitions }
{
    (1..=32).contains(&places) && (1..=16).contains(&transitions)
}

// Writes the soak net of this seed, with so many places and transitions, as a net text at the buffer's front, and answers its length. Further bytes
// stay. Refused, with nothing written: 2 where there are not 1 to 32 places or not 1 to 16 transitions, then 19 where the text does not fit.
pub fn soak(seed: u64, places: u64, transitions: u64, out: &mut [u8]) -> Result<usize, Refusal>
    ensures { (out.new, Soak.told result) ≡ Soak.called out.old seed places transitions }
{
    if !sizes_fit(places, transitions) {
        return Err(Refusal::BadSize);
    }
    put_text(out, seed, places, transitions).ok_or(Refusal::ShortBuffer)
}
