//! The threshold of a small program, as a law.
ghost use Rattle.affc_bounds.specs.threshold.Examples.{OfTheBlur, OfNothing};

/// The blur of affc_trace.
pub fn blur()
    ensures sizes { OfTheBlur }
    ensures nothing { OfNothing }
{}
