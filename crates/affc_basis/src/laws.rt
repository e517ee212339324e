//! What may be concluded about folds. Each law is the contract of a function that does nothing.
ghost use Rattle.std.specs.Prelude.{List, ℕ, ℤ};
ghost use Rattle.affc_basis.specs.Listed.{ListedAreBases};
ghost use Rattle.affc_basis.specs.Laws.{RowsSeparate, PlacesMeetInTheLattice, SliceIsFound, GreatestIsFound, ObeyingFoldSeparates, WholeArrayObeys, AdmissibleFoldsSeparate, LivePairsAreDifferent, LivePairsLieWithin, PlacesAreAdmissible, FoldsKeepParameters, LeastMarkIsNeed, NeedIsLeast, ObeyingIsEnough, GreatestIsUnique, NeedIsUnique, GreatestValueIsUnique, CostIsUnique, FoldsAreFound, CompilesFolded, FoldedPremisesCompile};

/// Conflicts over a context: which elements of an array, by their subscripts, are to have different places. The live
/// pairs of a program are such pairs; the laws over `C` hold of any.
pub trait Conflicts {
    /// Which values of the parameters are in the context.
    ghost in_context: { List ℤ → Type 0 };
    /// Which two elements are a pair, at values of the parameters.
    ghost pairs: { List ℤ → List ℤ → List ℤ → Type 0 };
}

/// Conflicts of each array, by its number: those of `LivePair program schedule`, or others.
pub trait ArrayConflicts {
    /// Which two elements of an array are a pair, at values of the parameters.
    ghost pairs: { ℕ → List ℤ → List ℤ → List ℤ → Type 0 };
}

/// A basis loses nothing: elements that lie apart along no row are equal.
pub fn rows_separate()
    ensures law { RowsSeparate }
{}

/// The rows and the inverse forms of each listed basis multiply to the identity.
pub fn listed_are_bases()
    ensures law { ListedAreBases }
{}

/// Two elements have one place exactly where their difference is in the lattice.
pub fn places_meet_in_the_lattice()
    ensures law { PlacesMeetInTheLattice }
{}

/// The list of a slice holds exactly its pairs.
pub fn slice_is_found()
    ensures law { SliceIsFound }
{}

/// The greatest distance of that list is the greatest of the slice.
pub fn greatest_is_found()
    ensures law { GreatestIsFound }
{}

/// Successive moduli that exceed what their rows need keep the elements of any pairs apart.
pub fn obeying_fold_separates<C: Conflicts>()
    ensures law { ObeyingFoldSeparates C.pairs }
{}

/// An array that is left whole obeys.
pub fn whole_array_obeys<C: Conflicts>()
    ensures law { WholeArrayObeys C.pairs }
{}

/// No two elements of a pair have one place, where each fold is admissible.
pub fn admissible_folds_separate<C: ArrayConflicts>()
    ensures law { AdmissibleFoldsSeparate C.pairs }
{}

/// The live pairs of a program are such pairs, and so no elements that are live together have one place.
pub fn live_pairs_are_pairs()
    ensures different { LivePairsAreDifferent }
    ensures within { LivePairsLieWithin }
    ensures admissible { PlacesAreAdmissible }
{}

/// Folds of temporaries leave the parameter arrays as they are.
pub fn folds_keep_parameters()
    ensures law { FoldsKeepParameters }
{}

/// A modulus that is enough and has a true mark is what its row needs, whatever the pairs are.
pub fn least_mark_is_need<C: Conflicts>()
    ensures law { LeastMarkIsNeed C.in_context C.pairs }
{}

/// No smaller modulus than the need is enough.
pub fn need_is_least<C: Conflicts>()
    ensures law { NeedIsLeast C.in_context C.pairs }
{}

/// The moduli of a fold that obeys are enough.
pub fn obeying_is_enough<C: Conflicts>()
    ensures law { ObeyingIsEnough C.in_context C.pairs }
{}

/// A slice has one greatest distance.
pub fn greatest_is_unique<C: Conflicts>()
    ensures law { GreatestIsUnique C.pairs }
{}

/// A row has one need.
pub fn need_is_unique<C: Conflicts>()
    ensures law { NeedIsUnique C.in_context C.pairs }
{}

/// A modulus has one greatest value over a context, and so a fold has one cost.
pub fn greatest_value_is_unique<C: Conflicts>()
    ensures law { GreatestValueIsUnique C.in_context }
    ensures cost { CostIsUnique C.in_context }
{}

/// The fold of an array is the one that a list of folds names with it.
pub fn folds_are_found()
    ensures law { FoldsAreFound }
{}

/// A program that runs the target of a legal schedule, at the places of folds that obey, compiles its source.
pub fn compiles_folded<C: ArrayConflicts>()
    ensures law { CompilesFolded C.pairs }
{}

/// The same with the premises as a record.
pub fn folded_premises_compile<C: ArrayConflicts>()
    ensures law { FoldedPremisesCompile C.pairs }
{}
