//! A running sum of products, with the sum of their magnitudes.
ghost use Rattle.std.specs.Prelude.{◌≡◌, ℕ, ◌+◌, ◌-◌, ◌*◌, ◌^◌, ◌<◌, ◌≤◌, ◌+ℤ◌, ◌*ℤ◌, pos, unsigned_abs, IfOk, OnOk, OnErr, IfSome, IfNone};

use thiserror::Error;

/// The greatest sum of magnitudes that a call takes.
pub const MOST_MAGNITUDE: u128 = 1 << 126;

/// The magnitudes of the terms sum to more than `2^126`.
#[derive(Debug, Clone, Copy, PartialEq, Eq, Error)]
#[error("the magnitudes of the terms sum to more than 2^126")]
pub struct Range;

/// The product of two numbers, unless it passes `i128`. Two numbers of 64 bits take one machine multiplication.
#[inline]
fn product_of(c: i128, x: i128) -> Option<i128>
    ensures value { IfSome result (λ p. p ≡ c *ℤ x) }
    ensures wide { IfNone result (2 ^ 126 < unsigned_abs c * unsigned_abs x) }
{
    match (i64::try_from(c), i64::try_from(x)) {
        (Ok(c), Ok(x)) => Some(i128::from(c) * i128::from(x)),
        _ => c.checked_mul(x),
    }
}

/// A sum of products so far, and the sum of the magnitudes of these products.
#[derive(Clone, Copy)]
pub struct Total {
    pub value: i128,
    pub magnitude: u128,
    ghost within: { unsigned_abs value ≤ magnitude },
    ghost limited: { magnitude ≤ 2 ^ 126 },
}

impl Total {
    /// The empty sum.
    pub fn zero() -> Total
        ensures value { result.value ≡ pos 0 }
        ensures magnitude { result.magnitude ≡ 0 }
    {
        Total {
            value: 0,
            magnitude: 0,
        }
    }

    /// The sum with one product more.
    #[inline]
    pub fn add(self, c: i128, x: i128) -> Result<Total, Range>
        ensures value { IfOk result (λ t. t.value ≡ self.value +ℤ (c *ℤ x)) }
        ensures magnitude { IfOk result (λ t. t.magnitude ≡ self.magnitude + unsigned_abs c * unsigned_abs x) }
        ensures fits { OnOk result (self.magnitude + unsigned_abs c * unsigned_abs x ≤ 2 ^ 126) }
        ensures range { OnErr result (2 ^ 126 < self.magnitude + unsigned_abs c * unsigned_abs x) }
    {
        let Some(product) = product_of(c, x) else {
            return Err(Range);
        };
        let magnitude = product.unsigned_abs();
        if magnitude > MOST_MAGNITUDE - self.magnitude {
            return Err(Range);
        }
        Ok(Total {
            value: self.value + product,
            magnitude: self.magnitude + magnitude,
        })
    }
}
