//! What proofs of the questions on a schedule show, as the contract of a function that does nothing.
ghost use Rattle.affc_legal.specs.Legal.{ProofsShowLegality};

/// Valid proofs of all questions, in order, show that the schedule is legal throughout the context.
pub fn proofs_show_legality()
    ensures law { ProofsShowLegality }
{}
