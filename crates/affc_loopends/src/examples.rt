//! What the definitions give of small statements, as laws: `specs/Examples.antt` says each, with values that were found by hand from
//! the rules.
ghost use Rattle.affc_loopends.specs.Examples.{TriangleRows, OneOneHasATime, HalvesAreTimePoints, TheDivisorCounts, NotAboveTheDiagonal, BelowIsOneLess, BesideTheOtherEnd, NotByOneEnd, ReversedEnds, OneEndIsTooFew, EachAtItsEnd, NoOtherRow, RangeIsARow, RangeMayGo, RangeIsTooLittle, BesideTheParameter, NotByItself, BoundStays, OneAndAHalfIsATimePoint, NoneIsWhole};

/// The instances below a diagonal, by their sum.
pub fn triangles()
    ensures rows { TriangleRows }
    ensures one_one { OneOneHasATime }
    ensures halves { HalvesAreTimePoints }
    ensures divisor { TheDivisorCounts }
    ensures not_above { NotAboveTheDiagonal }
    ensures below { BelowIsOneLess }
    ensures beside_the_other_end { BesideTheOtherEnd }
    ensures not_by_one_end { NotByOneEnd }
{}

/// A loop from its end to its start.
pub fn reverses()
    ensures ends { ReversedEnds }
    ensures too_few { OneEndIsTooFew }
    ensures each_at_its_end { EachAtItsEnd }
    ensures no_other_row { NoOtherRow }
{}

/// A loop whose bound implies the range of its iterator.
pub fn leaves_out()
    ensures range_is_a_row { RangeIsARow }
    ensures range_may_go { RangeMayGo }
    ensures range_is_too_little { RangeIsTooLittle }
    ensures beside_the_parameter { BesideTheParameter }
    ensures not_by_itself { NotByItself }
    ensures bound_stays { BoundStays }
{}

/// A time set without a whole point.
pub fn halves()
    ensures rational { OneAndAHalfIsATimePoint }
    ensures none_is_whole { NoneIsWhole }
{}
