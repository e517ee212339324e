//! Moduli of small pairs, as laws: `specs/Examples.antt` says each, with values that were found by hand.
ghost use Rattle.affc_moduli.specs.Examples.{TwoIsFarthest, OneSideIsTooLittle, ThreeSuits, ThreeIsDone, BoundsAreConstants, BoundsComeLast, MarksMayTurn, RowsAreSuccessive, BarredByParallels};

/// How far apart the elements of pairs lie, on both sides.
pub fn distances()
    ensures farthest { TwoIsFarthest }
    ensures sides { OneSideIsTooLittle }
    ensures suitable { ThreeSuits }
{}

/// Moduli that are least, and that are bounds alone.
pub fn moduli()
    ensures done { ThreeIsDone }
    ensures constants { BoundsAreConstants }
    ensures last { BoundsComeLast }
    ensures turned { MarksMayTurn }
{}

/// Which pairs a row sees, and which rows bar one another.
pub fn rows()
    ensures successive { RowsAreSuccessive }
    ensures barred { BarredByParallels }
{}
