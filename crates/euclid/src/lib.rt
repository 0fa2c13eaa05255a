// Euclid's rule: the greatest common divisor, and the least number of steps to a multiple.
#![tactic(auto)]

ghost use Rattle.std.specs.Prelude.{◌≡◌, ◌<◌, ◌≤◌};
ghost use Rattle.std.specs.Int.{◌∣◌, IsGcd};
ghost use Rattle.euclid.specs.Divisor.{euclid};
ghost use Rattle.euclid.specs.Steps.{Fewest, Least};

/// The greatest common divisor of two numbers: that of (a, b) is that of (b, a mod b), and that of
/// (a, 0) is a.
pub fn gcd(a: u64, b: u64) -> u64
    ensures rule { result ≡ euclid a b }
    ensures greatest { IsGcd a b result }
{
    if b == 0 { a } else { gcd(b, a % b) }
}

// The least number of steps of `step` from `start` to a multiple of `modulus`, where there is one.
// `step` must make up what `start` lacks of the next multiple, and then some number k of whole
// multiples: the least k is the answer for the pair (step, modulus mod step).
fn steps_along(modulus: u64, step: u64, start: u64) -> u64
    requires some { 0 < modulus }
    requires modulus_bound { modulus < 65536 }
    requires step_bound { step < 65536 }
    requires meets { euclid modulus step ∣ start }
    ensures least { Least modulus step start result }
    ensures below { result < modulus }
{
    let over = start % modulus;
    if over == 0 {
        0
    } else {
        let lacking = modulus - over;
        (lacking + modulus * steps_along(step, modulus % step, lacking)) / step
    }
}

/// The least number of steps of `step` that lead from `start` to a multiple of `modulus`, or none
/// where no number of steps does.
pub fn least_steps(modulus: u16, step: u16, start: u64) -> Option<u64>
    ensures { Fewest modulus step start result }
{
    if modulus == 0 {
        return (start == 0).then_some(0);
    }
    let modulus = modulus as u64;
    let step = step as u64;
    (start % gcd(modulus, step) == 0).then(|| steps_along(modulus, step, start))
}
