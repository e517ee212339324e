//! The nests of small programs, as laws: `specs/Examples.antt` says each, with rows that were found by hand.
ghost use Rattle.affc_nest.specs.Examples.{TriangleNest, TriangleExtents, TriangleBounds, SieveNest, SieveExtents, SieveBounds, OnePointNest, OnePointAsksNothing, SixLoopsNest, SixLoopsExtents, SixLoopsBounds, PlacesOfBranches, RowsOfBranches};

/// A triangle under a condition, at one value of the parameter, and a loop that is never entered.
pub fn triangle()
    ensures nest { TriangleNest }
    ensures extents { TriangleExtents }
    ensures bounds { TriangleBounds }
{}

/// All five relations, a statement that its own loop never reaches and one that an outer loop never reaches, numbers
/// without dimensions, and `+=`.
pub fn sieve()
    ensures nest { SieveNest }
    ensures extents { SieveExtents }
    ensures bounds { SieveBounds }
{}

/// Four parameters, under a context that holds at one point.
pub fn one_point()
    ensures nest { OnePointNest }
    ensures questions { OnePointAsksNothing }
{}

/// Six loops, each inside the other, conditions between them, and two arrays.
pub fn six_loops()
    ensures nest { SixLoopsNest }
    ensures extents { SixLoopsExtents }
    ensures bounds { SixLoopsBounds }
{}

/// Conditions that are not only joined comparisons, and an `else`.
pub fn branches()
    ensures places { PlacesOfBranches }
    ensures rows { RowsOfBranches }
{}
