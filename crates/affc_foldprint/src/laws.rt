//! What holds of programs with folds. Each law is the contract of a function that does nothing.
ghost use Rattle.affc_foldprint.specs.Laws.{FoldsAreScanned, FoldsSpare, FoldsWellNamed, FoldsKeepTimes, FoldsCompile, FoldsRunTightly};

use affc_loopends::scanned::laws::{scans_run_between, turns_extend};
use affc_loopprint::laws::{between_well_named, spare_well_named};

/// The source's nest is one for the folded program.
pub fn folds_are_scanned()
    ensures law { FoldsAreScanned }
{}

/// Where a text reads as the source, which is bare, the folded program has room for loops.
pub fn folds_spare()
    ensures law { FoldsSpare }
{}

/// So the loops of the folded program are well named.
pub fn folds_well_named()
    ensures law { FoldsWellNamed }
{
    spare_well_named();
    between_well_named();
}

/// The folded program has the source's loops, conditions and context.
pub fn folds_keep_times()
    ensures law { FoldsKeepTimes }
{}

/// Its loops compile the source, under a legal schedule and with folds that obey.
pub fn folds_compile()
    ensures law { FoldsCompile }
{
    scans_run_between();
}

/// Where one statement alone can have instances and no component is loose, each turn extends to a point of its time set.
pub fn folds_run_tightly()
    ensures law { FoldsRunTightly }
{
    turns_extend();
}
