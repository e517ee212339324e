//! Multipliers of the sum of two rows, in least terms.
ghost use Rattle.std.specs.Prelude.{◌≡◌, ℕ, ◌+◌, ◌-◌, ◌*◌, ◌/◌, ◌^◌, ◌<◌, ◌≤◌, drop, map, length, IfOk, IfErr, IfSome, IfNone};
ghost use Rattle.std.specs.List.{All, Contains};
ghost use Rattle.affc_eliminate.specs.Mixtures.{weight_of, mixed_weight, WeightPasses};
ghost use Rattle.affc_eliminate.specs.Merges.{AreTimes, IsTerm, AreMerged, IsDivisor, AreLeast};

use affc_farkas::Multipliers;
use affc_rows::vocabulary::gcd;
use std::alloc::Global;

const MOST_MULTIPLIER: u128 = 1 << 53;

const FIRST_WIDE: u128 = 1 << 127;

/// Why a row isn't made.
#[derive(Clone, Copy)]
pub(crate) enum MixFault {
    Wide,
    Memory,
}

/// The least row number of what is left of two lists, with its multiplier in each, 0 where it has none, and the next places.
#[derive(Clone, Copy)]
pub(crate) struct Term {
    pub(crate) number: u32,
    pub(crate) first: u64,
    pub(crate) second: u64,
    pub(crate) left: usize,
    pub(crate) right: usize,
}

/// Multipliers in least terms, and what they were divided by.
#[derive(Drop)]
pub(crate) struct Least {
    pub(crate) divisor: u128,
    pub(crate) from: Multipliers,
}

/// The next term of two lists, from these places on.
fn next_term(first: &[(u32, u64)], left: usize, second: &[(u32, u64)], right: usize) -> Option<Term>
    requires first { AreTimes (drop left first.now) }
    requires second { AreTimes (drop right second.now) }
    ensures some { IfSome result (λ term. IsTerm first.now left second.now right term) }
    ensures none { IfNone result ((length first.now ≤ left) × (length second.now ≤ right)) }
{
    match (first.get(left), second.get(right)) {
        (None, None) => None,
        (Some(p), None) => Some(Term {
            number: p.0,
            first: p.1,
            second: 0,
            left: left + 1,
            right,
        }),
        (None, Some(q)) => Some(Term {
            number: q.0,
            first: 0,
            second: q.1,
            left,
            right: right + 1,
        }),
        (Some(p), Some(q)) => {
            if p.0 < q.0 {
                Some(Term {
                    number: p.0,
                    first: p.1,
                    second: 0,
                    left: left + 1,
                    right,
                })
            } else if q.0 < p.0 {
                Some(Term {
                    number: q.0,
                    first: 0,
                    second: q.1,
                    left,
                    right: right + 1,
                })
            } else {
                Some(Term {
                    number: p.0,
                    first: p.1,
                    second: q.1,
                    left: left + 1,
                    right: right + 1,
                })
            }
        }
    }
}

/// `s` times a multiplier plus `t` times another, below `2^127`.
fn mixed_times(s: u128, w: u64, t: u128, v: u64) -> Option<u128>
    ensures some { IfSome result (λ n. n ≡ s * w + t * v) }
    ensures small { IfSome result (λ n. n < 2 ^ 127) }
    ensures none { IfNone result (2 ^ 127 ≤ s * w + t * v) }
{
    let Some(left) = s.checked_mul(u128::from(w)) else {
        return None;
    };
    let Some(right) = t.checked_mul(u128::from(v)) else {
        return None;
    };
    let Some(sum) = left.checked_add(right) else {
        return None;
    };
    if sum < FIRST_WIDE { Some(sum) } else { None }
}

/// `s` times the first multipliers plus `t` times the second.
fn merged(
    alloc: Global,
    s: u128,
    first: &[(u32, u64)],
    t: u128,
    second: &[(u32, u64)],
) -> Result<Vec<(u32, u128)>, MixFault>
    requires s_positive { 1 ≤ s }
    requires t_positive { 1 ≤ t }
    requires first { AreTimes first.now }
    requires second { AreTimes second.now }
    ensures ok { IfOk result (λ v. AreMerged s first.now t second.now v.items) }
    ensures wide { IfErr result (λ e. e ≡ MixFault.Wide → (i : ℕ) × (2 ^ 127 ≤ mixed_weight s first.now t second.now i)) }
{
    let mut sums = Vec::new(alloc);
    let mut left = 0usize;
    let mut right = 0usize;
    while let Some(term) = next_term(first, left, second, right) {
        let Some(sum) = mixed_times(s, term.first, t, term.second) else {
            return Err(MixFault::Wide);
        };
        let Ok(()) = sums.push((term.number, sum)) else {
            return Err(MixFault::Memory);
        };
        left = term.left;
        right = term.right;
    }
    Ok(sums)
}

/// The greatest common divisor of the multipliers.
fn common_divisor(sums: &[(u32, u128)]) -> u128
    ensures { IsDivisor result sums.now }
{
    let mut divisor = 0u128;
    for sum in sums {
        divisor = gcd(divisor, sum.1);
    }
    divisor
}

/// The multipliers divided by a number.
fn divided(alloc: Global, sums: &[(u32, u128)], divisor: u128) -> Result<Vec<(u32, u64)>, MixFault>
    requires { 1 ≤ divisor }
    ensures ok { IfOk result (λ v. v.items ≡ map (λ p. (p.0, p.1 / divisor)) sums.now) }
    ensures small { IfOk result (λ v. All (λ p. p.1 ≤ 2 ^ 53) v.items) }
    ensures wide { IfErr result (λ e. e ≡ MixFault.Wide → (p : ℕ × ℕ) × Contains sums.now p × (2 ^ 53 < p.1 / divisor)) }
{
    let Ok(mut pairs) = Vec::with_capacity(alloc, sums.len()) else {
        return Err(MixFault::Memory);
    };
    for sum in sums {
        let times = sum.1 / divisor;
        if times > MOST_MULTIPLIER {
            return Err(MixFault::Wide);
        }
        let Ok(()) = pairs.push((sum.0, times as u64)) else {
            return Err(MixFault::Memory);
        };
    }
    Ok(pairs)
}

/// `s` times the first multipliers plus `t` times the second, in least terms.
pub(crate) fn least_multipliers(
    alloc: Global,
    s: u128,
    first: &Multipliers,
    t: u128,
    second: &Multipliers,
) -> Result<Least, MixFault>
    requires s_positive { 1 ≤ s }
    requires t_positive { 1 ≤ t }
    requires first { All (λ p. p.0 < 1024) first.now }
    requires second { All (λ p. p.0 < 1024) second.now }
    requires some { 1 ≤ length first.now }
    ensures ok { IfOk result (λ least. AreLeast s first.now t second.now least) }
    ensures wide { IfErr result (λ e. e ≡ MixFault.Wide → WeightPasses (mixed_weight s first.now t second.now)) }
{
    let sums = match merged(alloc, s, first.pairs(), t, second.pairs()) {
        Ok(sums) => sums,
        Err(fault) => return Err(fault),
    };
    let divisor = common_divisor(sums.as_slice());
    let pairs = match divided(alloc, sums.as_slice(), divisor) {
        Ok(pairs) => pairs,
        Err(fault) => return Err(fault),
    };
    let Some(from) = Multipliers::from_pairs(pairs) else {
        unreachable!()
    };
    Ok(Least { divisor, from })
}
