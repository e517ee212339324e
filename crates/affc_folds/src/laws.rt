//! What may be concluded about a basis that was chosen, and where nothing is limited. Each law is the contract of a function that does nothing.
ghost use Rattle.affc_folds.specs.Laws.{NoneCostsLess, StoredAnswers, FoldsExist};

use affc_basis::laws::ArrayConflicts;
use affc_weigh::laws::Costing;

/// No large enough fold over a listed basis costs less than the one that was chosen, where all that was asked was answered.
pub fn none_costs_less<C: Costing, P: ArrayConflicts>()
    ensures law { NoneCostsLess C.answers P.pairs }
{}

/// What stores a function answers to all lists of moduli.
pub fn stored_answers()
    ensures law { StoredAnswers }
{}

/// Each temporary of a program that keeps to its arrays has a fold, with the least moduli and their marks.
pub fn folds_exist<C: Costing>()
    ensures law { FoldsExist C.answers }
{}
