// Normal draws by the polar method, the spare of a pair kept for the next draw.
#![tactic(auto)]

ghost use Rattle.std.specs.Prelude.{◌≡◌};
ghost use Rattle.rng.specs.State as Rng;
ghost use Rattle.rng.specs.Xoshiro as Xoshiro;
ghost use Rattle.normals.specs.Normal as Spec;

use refusals::Refusal;
use rng::{Drawn, Xoshiro256};

// A generator, and the second value of the last pair: `spare` counts where `waiting` says so. No `Option`: `cild_normals` promises C the bits of a spare that
// waits no more.
#[derive(Clone, Copy)]
pub struct GaussianSampler {
    pub rng: Xoshiro256,
    pub spare: f64,
    pub waiting: bool,
}

// A draw, refused where it rejected 128 pairs, and the sampler after it; where the draw is refused, the sampler as it came.
#[derive(Clone, Copy)]
pub struct Normal {
    pub draw: Result<f64, Refusal>,
    pub sampler: GaussianSampler,
}

// Two numbers in [-1, 1), the sum of their squares, and the generator after them.
#[derive(Clone, Copy)]
struct Pair {
    u1: f64,
    u2: f64,
    sq: f64,
    rng: Xoshiro256,
}

const MOST_PAIRS: u64 = 128;

// 2 * uniform - 1, and the generator after it.
fn coordinate(rng: Xoshiro256) -> Drawn<f64>
    ensures { (result.value ≡ Spec.coordinate (Rng.words rng.s)) × (Rng.words result.rng.s ≡ Xoshiro.step (Rng.words rng.s)) }
{
    let d = rng.uniform();
    Drawn {
        value: 2.0 * d.value - 1.0,
        rng: d.rng,
    }
}

fn drawn_pair(rng: Xoshiro256) -> Pair
    ensures { Spec.pair_in result ≡ Spec.pair (Rng.words rng.s) }
{
    let a = coordinate(rng);
    let g1 = a.rng;
    let b = coordinate(g1);
    let g2 = b.rng;
    let u1 = a.value;
    let u2 = b.value;
    Pair {
        u1,
        u2,
        sq: u1 * u1 + u2 * u2,
        rng: g2,
    }
}

// Inside the circle of radius 1, and not its centre?
fn accepted(sq: f64) -> bool
    ensures { result ≡ Spec.accepted sq }
{
    0.0 < sq && sq < 1.0
}

fn scale(sq: f64) -> f64
    ensures { result ≡ Spec.scale sq }
{
    root::sqrt((-2.0 * portable_log::plog(sq)) / sq)
}

// The first accepted of at most 128 pairs.
fn first_accepted(rng: Xoshiro256) -> Option<Pair>
    ensures { Spec.found_of result ≡ Spec.first_accepted 128 (Rng.words rng.s) }
{
    let mut g = rng;
    for _ in 0..MOST_PAIRS {
        let p = drawn_pair(g);
        if accepted(p.sq) {
            return Some(p);
        }
        g = p.rng;
    }
    None
}

impl GaussianSampler {
    // The sampler that a seed starts, with no spare.
    pub fn new(seed: u64) -> GaussianSampler
        ensures { Spec.sampler_of result ≡ Spec.seeded_sampler seed }
    {
        GaussianSampler {
            rng: Xoshiro256::new(seed),
            spare: 0.0,
            waiting: false,
        }
    }

    // A normal draw. A spare that waits is handed out without drawing. Else the first of a pair's two values is given and the second waits; after 128
    // rejected pairs the draw is refused, and the sampler comes back as it came.
    pub fn normal(self) -> Normal
        ensures { Spec.drawn_of result ≡ Spec.normal (Spec.sampler_of self) }
    {
        let rng = self.rng;
        if self.waiting {
            return Normal {
                draw: Ok(self.spare),
                sampler: GaussianSampler {
                    rng: rng,
                    spare: self.spare,
                    waiting: false,
                },
            };
        }
        let Some(p) = first_accepted(rng) else {
            return Normal {
                draw: Err(Refusal::NoNormal),
                sampler: self,
            };
        };
        let m = scale(p.sq);
        Normal {
            draw: Ok(p.u1 * m),
            sampler: GaussianSampler {
                rng: p.rng,
                spare: p.u2 * m,
                waiting: true,
            },
        }
    }
}

// The same from a sampler that the caller lent: it is advanced, or left as it came where the draw is refused.
pub fn next_normal(sampler: &mut GaussianSampler) -> Result<f64, Refusal>
    ensures { Spec.answered_by result sampler.new ≡ Spec.normal (Spec.sampler_of sampler.old) }
{
    let s = *sampler;
    let drawn = s.normal();
    *sampler = drawn.sampler;
    drawn.draw
}
