//! Values that are refused or not.
ghost use Rattle.affc_cert.specs.Examples.{ProofsAreJudged, MultipliersAreJudged, TreesAreJudged, FoldsAreJudged, RefusalsAreInOrder, PartsAreNumbered, ObjectsAreJudged};

/// Proofs.
#[tactic(auto, using(crate::proofs::ExampleProofs::proofs_are_judged))]
pub fn proofs_are_judged()
    ensures { ProofsAreJudged }
{}

/// Row numbers and multipliers.
#[tactic(auto, using(crate::proofs::ExampleProofs::multipliers_are_judged))]
pub fn multipliers_are_judged()
    ensures { MultipliersAreJudged }
{}

/// Trees.
#[tactic(auto, using(crate::proofs::ExampleProofs::trees_are_judged))]
pub fn trees_are_judged()
    ensures { TreesAreJudged }
{}

/// Moduli and numbers of arrays.
#[tactic(auto, using(crate::proofs::ExampleProofs::folds_are_judged))]
pub fn folds_are_judged()
    ensures { FoldsAreJudged }
{}

/// Whole certificates.
#[tactic(auto, using(crate::proofs::ExampleProofs::refusals_are_in_order))]
pub fn refusals_are_in_order()
    ensures { RefusalsAreInOrder }
{}

/// Parts of each kind.
#[tactic(auto, using(crate::proofs::ExampleProofs::parts_are_numbered))]
pub fn parts_are_numbered()
    ensures { PartsAreNumbered }
{}

/// Objects.
#[tactic(auto, using(crate::proofs::ExampleProofs::objects_are_judged))]
pub fn objects_are_judged()
    ensures { ObjectsAreJudged }
{}
