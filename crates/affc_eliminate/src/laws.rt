//! What follows from the definitions. Each law is the contract of a function that does nothing.
ghost use Rattle.affc_eliminate.specs.Laws.{StepIsExact, SubstitutionIsExact, ImpliedRowIsSpare, TrivialRowIsSpare};

/// A point of the other columns meets the combinations of all positive with all negative rows exactly where it extends to a point of the rows.
pub fn step_is_exact()
    ensures { StepIsExact }
{}

/// With a row and its opposite, the combinations with these two are enough.
pub fn substitution_is_exact()
    ensures { SubstitutionIsExact }
{}

/// A row that a kept one implies is spare, and so is a row that holds everywhere.
#[tactic(auto, using(crate::proofs::Exactness::implied_row_is_spare, crate::proofs::Exactness::trivial_row_is_spare))]
pub fn rows_that_are_spare()
    ensures implied { ImpliedRowIsSpare }
    ensures trivial { TrivialRowIsSpare }
{}
