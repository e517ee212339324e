//! The costs by name.
ghost use Rattle.std.specs.Prelude.{◌≡◌, ◌≤◌, ◌*◌, ◌^◌, length};
ghost use Rattle.affc_weigh.specs.Costs.{words_cost, sum_cost, powers_cost, least_power};

/// The number of elements of an array with these extents.
#[tactic(auto, using(crate::proofs::Stopped::stopped_times))]
pub fn words(moduli: &[u64]) -> u128
    ensures { result ≡ words_cost moduli.now }
{
    match moduli {
        [] => 1,
        [first, rest @ ..] => u128::from(*first).saturating_mul(words(rest)),
    }
}

#[tactic(auto, using(crate::proofs::Rising::sum_first))]
fn total(moduli: &[u64]) -> u128
    ensures value { result ≡ sum_cost moduli.now }
    ensures bound { result ≤ length moduli.now * 2 ^ 64 }
{
    match moduli {
        [] => 0,
        [first, rest @ ..] => u128::from(*first) + total(rest),
    }
}

/// The sum of the moduli, which never passes a `u128`.
pub fn sum(moduli: &[u64]) -> u128
    ensures { result ≡ sum_cost moduli.now }
{
    total(moduli)
}

#[tactic(auto, using(crate::proofs::LeastPowers::next_is_least))]
fn next_power(n: u64) -> u128
    ensures { result ≡ least_power n }
{
    u128::from(n).next_power_of_two()
}

/// The number of elements where each modulus is rounded up to a power of two.
#[tactic(auto, using(crate::proofs::Stopped::stopped_times))]
pub fn powers(moduli: &[u64]) -> u128
    ensures { result ≡ powers_cost moduli.now }
{
    match moduli {
        [] => 1,
        [first, rest @ ..] => next_power(*first).saturating_mul(powers(rest)),
    }
}
