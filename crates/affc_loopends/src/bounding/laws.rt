//! What there always is. Each law is the contract of a function that does nothing.
ghost use Rattle.affc_loopends.specs.bounding.Laws.{SystemsProject, ColumnsHaveBounds, ProgramsScan};

/// A system of at most 2^62 rows has a projection onto its first columns, or an elimination of 4,096 pairs.
pub fn systems_project()
    ensures law { SystemsProject }
{}

/// Each column of a system has ends by modest rows, or one of the causes why it has none.
pub fn columns_have_bounds()
    ensures law { ColumnsHaveBounds }
{}

/// A program that has loops for a schedule is scanned.
pub fn programs_scan()
    ensures law { ProgramsScan }
{}
