//! What the definitions give at small folds, as laws: `specs/Examples.antt` says each, with values that were found
//! by hand from the rules.
ghost use Rattle.affc_basis.specs.Examples.{PlaceOfFour, PlacesOfTheBlur, PlaceBySecondFold, FoldsOfTheBlur, ListsOfFolds, RowsHaveTheirModuli, SlicesAreSuccessive, BlurNeedsTwo, OnlyTwoIsGreatest, ThreeObeys, TwoIsTooFew, ThreeIsLeast, BlurNeedsThree, ThreeIsEnough, MarksOfTheBlur, MarksElsewhere, OneIsEnough, OneHasNoPair, BlurLiesWithin, FiveAndThreeAreGreatest, CostOfOneMore};

/// Where elements are put.
pub fn places()
    ensures place_of_four { PlaceOfFour }
    ensures of_the_blur { PlacesOfTheBlur }
    ensures by_second_fold { PlaceBySecondFold }
    ensures own_moduli { RowsHaveTheirModuli }
{}

/// Pairs that lie apart along an earlier row.
pub fn slices()
    ensures are_successive { SlicesAreSuccessive }
{}

/// What the blur of affc_trace needs.
pub fn blur()
    ensures needs_two { BlurNeedsTwo }
    ensures only_two { OnlyTwoIsGreatest }
    ensures three_obeys { ThreeObeys }
    ensures two_is_too_few { TwoIsTooFew }
    ensures three_is_least { ThreeIsLeast }
{}

/// What its row needs, and which marks are true.
pub fn marks()
    ensures needs_three { BlurNeedsThree }
    ensures three_is_enough { ThreeIsEnough }
    ensures of_the_blur { MarksOfTheBlur }
    ensures elsewhere { MarksElsewhere }
    ensures one_is_enough { OneIsEnough }
    ensures one_has_no_pair { OneHasNoPair }
{}

/// What folds and extents have to be.
pub fn premises()
    ensures folds { FoldsOfTheBlur }
    ensures lists { ListsOfFolds }
    ensures lies_within { BlurLiesWithin }
{}

/// Greatest values over a context, and the cost of a fold.
pub fn costs()
    ensures greatest { FiveAndThreeAreGreatest }
    ensures cost { CostOfOneMore }
{}
