//! Pairs of elements.
ghost use Rattle.std.specs.List.{All};
ghost use Rattle.affc_system.specs.Pairs.{IsSubscript};

use crate::boxes::BoxOf;
use crate::system::System;
use affc_rows::Form;

/// The pairs of elements at the integer points of a system: at each, the subscripts `x` of one element and `y` of the other.
///
/// All forms are over the system's columns, of which the parameters are the first. Their coefficients are within 65,536
/// and their constants within 16,777,216.
#[derive(Drop)]
pub struct PairSystem {
    pub system: System,
    pub ranges: BoxOf,
    pub x: Vec<Form>,
    pub y: Vec<Form>,
    ghost x_fits: { All (IsSubscript system.columns) x.items },
    ghost y_fits: { All (IsSubscript system.columns) y.items },
}
