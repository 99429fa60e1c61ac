// The running sums of the propensities, kept from step to step, and the choice by them.
ghost use Rattle.std.specs.Prelude.{◌≡◌, ◌-◌, ◌≤◌, eqb, length, get_or, take};
ghost use Rattle.std.specs.Float.{nan};
ghost use Rattle.net.specs.Net.{pick, zero64};
ghost use Rattle.rules.specs.Propensity.{total};
ghost use Rattle.rules.specs.Jump as Jump;
ghost use Rattle.rules.specs.RunningSums as Sums;
ghost use Rattle.jump.specs.Answers as Answers;

// The sum in front of transition j.
fn sum_before(sums: &[f64; 64], j: usize) -> f64
    requires { j ≤ 64 }
    ensures { result ≡ pick (eqb j 0) zero64 (get_or sums.now (j - 1) nan) }
{
    if j == 0 {
        return 0.0;
    }
    sums[j - 1]
}

// Brings the sums up to date from transition `from` on, where those before it are good, and answers the total.
pub fn resum(transitions: usize, from: usize, props: &[f64; 64], sums: &mut [f64; 64]) -> f64
    requires { (transitions ≤ 64) × (from ≤ transitions) × (length props.now ≡ 64) × (length sums.old ≡ 64)
        × Sums.SumsKept from (take transitions props.now) sums.old }
    ensures { (length sums.new ≡ 64) × Sums.SumsKept transitions (take transitions props.now) sums.new
        × (result ≡ total (take transitions props.now)) }
{
    let mut sum = sum_before(sums, from);
    for j in from..transitions {
        sum += props[j];
        sums[j] = sum;
    }
    sum
}

// The last transition with positive propensity.
fn last_positive(transitions: usize, props: &[f64; 64]) -> Option<usize>
    requires { (transitions ≤ 64) × (length props.now ≡ 64) }
    ensures { Answers.FindsLast (take transitions props.now) result }
{
    for j in (0..transitions).rev() {
        if 0.0 < props[j] {
            return Some(j);
        }
    }
    None
}

// The first transition with positive propensity whose running sum is at least r; failing that, the last with positive propensity.
pub fn choose_by_sums<'a>(
    transitions: usize,
    r: f64,
    props: &'a [f64; 64],
    sums: &'a [f64; 64],
) -> Option<usize>
    requires { (transitions ≤ 64) × (length props.now ≡ 64) × Sums.SumsKept transitions (take transitions props.now) sums.now }
    ensures { Answers.choice_of result ≡ Jump.chosen r (take transitions props.now) }
{
    for j in 0..transitions {
        if r <= sums[j] && 0.0 < props[j] {
            return Some(j);
        }
    }
    last_positive(transitions, props)
}
