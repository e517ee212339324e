//! Rational points as numerators over one divisor.
use affc_rows::vocabulary::gcd;
use std::alloc::{AllocError, Global};

/// By what a divisor is multiplied so that another one divides it.
fn lacking(own: i128, other: i128) -> Option<i128> {
    let common = gcd(own.unsigned_abs(), other.unsigned_abs());
    other.checked_div(i128::try_from(common).ok()?)
}

/// Multiplies numbers.
fn multiply(numbers: &mut [i128], times: i128) -> Option<()> {
    for number in numbers.iter_mut() {
        *number = number.checked_mul(times)?;
    }
    Some(())
}

/// A point: these numerators, one for each column, over one divisor.
#[derive(Drop)]
pub struct Vertex {
    pub numerators: Vec<i128>,
    pub divisor: i128,
}

impl Vertex {
    /// The point at which each column is 0.
    pub(crate) fn new(alloc: Global, columns: usize) -> Result<Vertex, AllocError> {
        Ok(Vertex {
            numerators: vec![in alloc; 0i128; columns]?,
            divisor: 1,
        })
    }

    /// Sets a column to a quotient. `None` where a number doesn't fit.
    pub(crate) fn set(&mut self, column: usize, numerator: i128, divisor: i128) -> Option<()> {
        if divisor == 1 && self.divisor == 1 {
            if column < self.numerators.len() {
                self.numerators[column] = numerator;
            }
            return Some(());
        }
        let common = gcd(numerator.unsigned_abs(), divisor.unsigned_abs());
        let common = i128::try_from(common).ok()?;
        let numerator = numerator.checked_div(common)?;
        let divisor = divisor.checked_div(common)?;
        let scale = self.scaled_for(divisor)?;
        if column < self.numerators.len() {
            self.numerators[column] = numerator.checked_mul(scale)?;
        }
        Some(())
    }

    /// Multiplies the point's numbers so that a number divides its divisor, and answers the quotient.
    fn scaled_for(&mut self, divisor: i128) -> Option<i128> {
        let scale = self.divisor.checked_div(divisor)?;
        if scale.checked_mul(divisor)? == self.divisor {
            return Some(scale);
        }
        let times = lacking(self.divisor, divisor)?;
        self.divisor = self.divisor.checked_mul(times)?;
        multiply(self.numerators.as_mut_slice(), times)?;
        self.divisor.checked_div(divisor)
    }
}
