//! The systems of two statements, as laws: `specs/Examples.antt` says each, with rows that were found by hand.
ghost use Rattle.affc_order.specs.Examples.{FirstInTheLoop, SecondInTheLoop, TwoOfOneStatement, NoLoopIsShared, TimesAreCompared, TurnedTimesAreCompared, PartsOfOneStatement, SourceIsATarget, ColumnsBetween};

/// The order of the text.
pub fn source()
    ensures first_in_the_loop { FirstInTheLoop }
    ensures second_in_the_loop { SecondInTheLoop }
    ensures two_of_one_statement { TwoOfOneStatement }
    ensures no_loop_is_shared { NoLoopIsShared }
{}

/// The order of times.
pub fn target()
    ensures times_are_compared { TimesAreCompared }
    ensures turned_times_are_compared { TurnedTimesAreCompared }
    ensures parts_of_one_statement { PartsOfOneStatement }
    ensures source_is_a_target { SourceIsATarget }
    ensures columns_between { ColumnsBetween }
{}
