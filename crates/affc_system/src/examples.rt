//! What the definitions give at a small system, as laws: `specs/Examples.antt` says each, with values that were found by hand.
ghost use Rattle.affc_system.specs.Examples.{TwoAndThreeAreNeighbours, AlsoTheOtherWayRound, ThreeAndFourNeedAGreaterParameter, NoneIsItsOwnNeighbour, RowsAreMetBelowN};

/// Which rows are met, and which pairs stand at the points of a system.
pub fn neighbours()
    ensures rows_are_met_below_n { RowsAreMetBelowN }
    ensures two_and_three { TwoAndThreeAreNeighbours }
    ensures the_other_way_round { AlsoTheOtherWayRound }
    ensures three_and_four { ThreeAndFourNeedAGreaterParameter }
    ensures none_is_its_own { NoneIsItsOwnNeighbour }
{}
