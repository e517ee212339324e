//! What the definitions give at small programs, as laws: `specs/Examples.antt` says each, with values that were
//! found by hand from the rules.
ghost use Rattle.affc_floor.specs.Examples.{BlurIsLive, SourceOrderIsLive, ThreeAtFour, InputIsNotLive, TwoValuesOfOne, LoadedBeforeStored, FirstFaults, EventsInOrder, FirstLows, SpansAreOpen};

/// A blur of two statements.
pub fn blur()
    ensures live { BlurIsLive }
    ensures source_order { SourceOrderIsLive }
    ensures three_at_four { ThreeAtFour }
    ensures input { InputIsNotLive }
{}

/// Schedules that turn dependences round.
pub fn illegal()
    ensures two_values { TwoValuesOfOne }
    ensures before_stored { LoadedBeforeStored }
{}

/// The first event that is wrong, and the first extent.
pub fn faults()
    ensures first { FirstFaults }
    ensures in_order { EventsInOrder }
    ensures lows { FirstLows }
{}

/// Spans that are open at instants.
pub fn spans()
    ensures { SpansAreOpen }
{}
