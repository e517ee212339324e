//! Layouts of small nests, and folds with bases, as laws: `specs/Examples.antt` says each.
ghost use Rattle.affc_accept.specs.Examples.{DeadStoresNothing, ScalarHasNoFold, GivenIsKept, WholeIsKept, OtherModulusIsNot, OtherBasisIsNot, NoneIsGiven, IteratorsComeFirst};

/// The layout of a nest.
pub fn layouts()
    ensures dead_stores_nothing { DeadStoresNothing }
    ensures scalar_has_no_fold { ScalarHasNoFold }
{}

/// Folds that have the basis that is given, and others.
pub fn bases()
    ensures given_is_kept { GivenIsKept }
    ensures whole_is_kept { WholeIsKept }
    ensures other_modulus_is_not { OtherModulusIsNot }
    ensures other_basis_is_not { OtherBasisIsNot }
    ensures none_is_given { NoneIsGiven }
{}

/// The columns of a tree's form in a text.
pub fn columns()
    ensures iterators_come_first { IteratorsComeFirst }
{}
