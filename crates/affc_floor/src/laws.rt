//! What live sets say of every safe map, and how they are found. Each law is the contract of a function that does nothing.
ghost use Rattle.affc_floor.specs.Laws.{LiveTogether, Slots, SlotsOfPlaces, LiveElementsAreFound, FloorIsOne, FloorIsBelow};
ghost use Rattle.affc_floor.specs.PositionLaws.{WantedIsLive, GreatestOpenIsFloor, NoneOpenIsNone, OrderIsTarget};
ghost use Rattle.affc_floor.specs.FaultLaws.{RunsToFirstFault, FirstFaultStops, NoFaultEnds, FaultsByArrays, LowExtentStops};

/// Different elements of an array that are live at one instance are a live pair.
pub fn live_together()
    ensures law { LiveTogether }
{}

/// A map that keeps live pairs apart gives different numbers to all elements that are live at one instance, and so uses at
/// least as many numbers as these are.
pub fn slots()
    ensures law { Slots }
    ensures places { SlotsOfPlaces }
{}

/// The lists that compute hold the elements that are live.
pub fn live_elements_are_found()
    ensures law { LiveElementsAreFound }
{}

/// The greatest live set is one, and no map that keeps live pairs apart uses fewer numbers than it has elements.
pub fn greatest()
    ensures one { FloorIsOne }
    ensures below { FloorIsBelow }
{}

/// An element is live at an instance exactly where its slot is wanted at the instance's position.
pub fn wanted_is_live()
    ensures law { WantedIsLive }
{}

/// The first position at which most spans are open has the greatest live set, which the slots of these spans are; where none is ever
/// open nothing is ever live.
pub fn greatest_open_is_floor()
    ensures law { GreatestOpenIsFloor }
    ensures none { NoneOpenIsNone }
{}

/// A list of the instances that agrees with the target's order is the target.
pub fn order_is_target()
    ensures law { OrderIsTarget }
{}

/// A run is stuck at the first event that is wrong, and ends where none is.
pub fn runs_to_first_fault()
    ensures law { RunsToFirstFault }
{}

/// The same from each store that fits, by which arrays are handed in.
pub fn from_each_store()
    ensures stops { FirstFaultStops }
    ensures ends { NoFaultEnds }
{}

/// Which elements hold values matters only within the extents.
pub fn faults_by_arrays()
    ensures law { FaultsByArrays }
{}

/// Before all events, it is stuck for an extent below 1.
pub fn low_extent_stops()
    ensures law { LowExtentStops }
{}
