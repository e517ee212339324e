//! What the questions of a fold decide. Each law is the contract of a function that does nothing.
ghost use Rattle.affc_conflicts.specs.Laws.{FoldQuestionsDecide, PairIsShown};

/// A fold none of whose questions has an integer point obeys.
pub fn fold_questions_decide()
    ensures law { FoldQuestionsDecide }
{}

/// A modulus whose mark's rows have a point, and its question none, is least.
pub fn pair_is_shown()
    ensures law { PairIsShown }
{}
