//! Sums of two products, where they are numbers of 128 bits.
ghost use Rattle.std.specs.Prelude.{◌≡◌, ◌⊎◌, ℕ, ℤ, ◌+◌, ◌*◌, ◌^◌, ◌<◌, ◌≤◌, pos, neg_ℤ, ◌+ℤ◌, ◌*ℤ◌, IfSome, IfNone};
ghost use Rattle.affc_eliminate.specs.Mixtures.{PassesSigned};

/// `s m + t n`.
fn sum_of(s: u128, m: u128, t: u128, n: u128) -> Option<u128>
    ensures some { IfSome result (λ v. v ≡ s * m + t * n) }
    ensures none { IfNone result (2 ^ 128 ≤ s * m + t * n) }
{
    let Some(first) = s.checked_mul(m) else {
        return None;
    };
    let Some(second) = t.checked_mul(n) else {
        return None;
    };
    first.checked_add(second)
}

/// `s m - t n`, where it is at least 0.
fn difference_of(s: u128, m: u128, t: u128, n: u128) -> Option<u128>
    ensures some { IfSome result (λ v. v + t * n ≡ s * m) }
    ensures none { IfNone result ((s * m < t * n) ⊎ (t * n + 2 ^ 128 ≤ s * m)) }
{
    let (low, high) = s.carrying_mul(m, 0);
    let (lower, upper) = t.carrying_mul(n, 0);
    if high == upper {
        low.checked_sub(lower)
    } else if high > upper && high - upper == 1 && low < lower {
        Some(u128::MAX - (lower - low) + 1)
    } else {
        None
    }
}

fn positive(v: u128) -> Option<i128>
    ensures some { IfSome result (λ z. z ≡ pos v) }
    ensures none { IfNone result (PassesSigned (pos v)) }
{
    0i128.checked_add_unsigned(v)
}

fn negative(v: u128) -> Option<i128>
    ensures some { IfSome result (λ z. z ≡ neg_ℤ (pos v)) }
    ensures none { IfNone result (PassesSigned (neg_ℤ (pos v))) }
{
    0i128.checked_sub_unsigned(v)
}

/// `s m - t n`.
fn opposite_sum(s: u128, m: u128, t: u128, n: u128) -> Option<i128>
    ensures some { IfSome result (λ z. z ≡ pos (s * m) +ℤ neg_ℤ (pos (t * n))) }
    ensures none { IfNone result (PassesSigned (pos (s * m) +ℤ neg_ℤ (pos (t * n)))) }
{
    match difference_of(s, m, t, n) {
        Some(v) => positive(v),
        None => match difference_of(t, n, s, m) {
            Some(v) => negative(v),
            None => None,
        },
    }
}

/// `s a + t b`.
pub(crate) fn exact_sum(s: u128, a: i128, t: u128, b: i128) -> Option<i128>
    ensures some { IfSome result (λ z. z ≡ (pos s *ℤ a) +ℤ (pos t *ℤ b)) }
    ensures none { IfNone result (PassesSigned ((pos s *ℤ a) +ℤ (pos t *ℤ b))) }
{
    let m = a.unsigned_abs();
    let n = b.unsigned_abs();
    if a >= 0 && b >= 0 {
        match sum_of(s, m, t, n) {
            Some(v) => positive(v),
            None => None,
        }
    } else if a < 0 && b < 0 {
        match sum_of(s, m, t, n) {
            Some(v) => negative(v),
            None => None,
        }
    } else if a >= 0 {
        opposite_sum(s, m, t, n)
    } else {
        opposite_sum(t, n, s, m)
    }
}
