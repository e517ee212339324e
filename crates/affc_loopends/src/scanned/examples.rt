//! What may be scanned of a small program, and what not, as laws: `specs/Examples.antt` says each, with values that were found by hand
//! from the rules.
ghost use Rattle.affc_loopends.specs.scanned.Examples.{NineHasLoops, ScansBetweenRows, NoRowIsLeftOut, NoRowsWhereLoose, ItsOwnOrder, RowsOfBounds, LooseAreNumbered};

/// A loop from its end to its start: between rows from both sides, and not with a row left out or with rows where it is loose.
pub fn reverses()
    ensures has_loops { NineHasLoops }
    ensures scans { ScansBetweenRows }
    ensures none_left_out { NoRowIsLeftOut }
    ensures none_where_loose { NoRowsWhereLoose }
    ensures own_order { ItsOwnOrder }
{}

/// The rows of bounds, and the components that have none.
pub fn bounds()
    ensures rows { RowsOfBounds }
    ensures loose { LooseAreNumbered }
{}
