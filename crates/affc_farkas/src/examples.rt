//! What the definitions give at small systems, as laws: `specs/Examples.antt` says each, with values that were found
//! by hand from the rules.
ghost use Rattle.affc_farkas.specs.Examples.{OnePairCancels, NoPairTwice, FirstIsPositive, AddedRowsAreNext, CancelledStaysCancelled, DepthIsOfTheDeepestWay, CutStandsBehindItsSplit, NoCutStandsOnTheLowSide};

/// Which pairs of rows are an elimination.
pub fn eliminations()
    ensures one_pair_cancels { OnePairCancels }
    ensures no_pair_twice { NoPairTwice }
    ensures first_is_positive { FirstIsPositive }
    ensures added_rows_are_next { AddedRowsAreNext }
    ensures cancelled_stays_cancelled { CancelledStaysCancelled }
{}

/// How deep proofs are, and which rows stand at their nodes.
pub fn depths()
    ensures of_the_deepest_way { DepthIsOfTheDeepestWay }
    ensures cut_stands_behind_its_split { CutStandsBehindItsSplit }
    ensures no_cut_stands_on_the_low_side { NoCutStandsOnTheLowSide }
{}
