//! What the words of forms give at small forms, as laws: `specs/Examples.antt` says each, with values that were found by hand.
ghost use Rattle.affc_rows.specs.Examples.{Columns, Opposites, LeastHasNone, MoreColumns, Gaps, Images};

/// Columns and numbers, opposites, and which numbers have one.
pub fn words()
    ensures columns { Columns }
    ensures opposites { Opposites }
    ensures least { LeastHasNone }
{}

/// Forms over more columns, rows of comparisons, and images.
pub fn made()
    ensures more_columns { MoreColumns }
    ensures gaps { Gaps }
    ensures images { Images }
{}
