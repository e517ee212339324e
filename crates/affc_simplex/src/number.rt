//! Whole numbers of one width: the simplex runs in `i64`, and in `i128` where a number doesn't fit.

/// Whole numbers of one width. `None` where a result doesn't fit.
pub trait Number: Copy + Drop {
    fn zero() -> Self;

    fn one() -> Self;

    fn from_word(n: i64) -> Self;

    fn from_wide(n: i128) -> Option<Self>;

    fn plus(self, other: Self) -> Option<Self>;

    fn times(self, other: Self) -> Option<Self>;

    fn negated(self) -> Option<Self>;
    /// The quotient, or 0 where the divisor is 0.
    fn over(self, other: Self) -> Self;
    /// The rest of the division, or 0 where the divisor is 0.
    fn rest(self, other: Self) -> Self;

    fn is_below(self, other: Self) -> bool;

    fn is_zero(self) -> bool;

    fn magnitude(self) -> u128;

    fn wide(self) -> i128;
}

impl Number for i64 {
    fn zero() -> i64 {
        0
    }

    fn one() -> i64 {
        1
    }

    fn from_word(n: i64) -> i64 {
        n
    }

    fn from_wide(n: i128) -> Option<i64> {
        i64::try_from(n).ok()
    }

    fn plus(self, other: i64) -> Option<i64> {
        self.checked_add(other)
    }

    fn times(self, other: i64) -> Option<i64> {
        self.checked_mul(other)
    }

    fn negated(self) -> Option<i64> {
        self.checked_neg()
    }

    fn over(self, other: i64) -> i64 {
        self.checked_div(other).unwrap_or(0)
    }

    fn rest(self, other: i64) -> i64 {
        self.checked_rem(other).unwrap_or(0)
    }

    fn is_below(self, other: i64) -> bool {
        self < other
    }

    fn is_zero(self) -> bool {
        self == 0
    }

    fn magnitude(self) -> u128 {
        u128::from(self.unsigned_abs())
    }

    fn wide(self) -> i128 {
        i128::from(self)
    }
}

impl Number for i128 {
    fn zero() -> i128 {
        0
    }

    fn one() -> i128 {
        1
    }

    fn from_word(n: i64) -> i128 {
        i128::from(n)
    }

    fn from_wide(n: i128) -> Option<i128> {
        Some(n)
    }

    fn plus(self, other: i128) -> Option<i128> {
        self.checked_add(other)
    }

    fn times(self, other: i128) -> Option<i128> {
        self.checked_mul(other)
    }

    fn negated(self) -> Option<i128> {
        self.checked_neg()
    }

    fn over(self, other: i128) -> i128 {
        self.checked_div(other).unwrap_or(0)
    }

    fn rest(self, other: i128) -> i128 {
        self.checked_rem(other).unwrap_or(0)
    }

    fn is_below(self, other: i128) -> bool {
        self < other
    }

    fn is_zero(self) -> bool {
        self == 0
    }

    fn magnitude(self) -> u128 {
        self.unsigned_abs()
    }

    fn wide(self) -> i128 {
        self
    }
}
