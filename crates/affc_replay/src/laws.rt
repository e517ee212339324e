//! Which certificates are replayed. Each law is the contract of a function that does nothing.
ghost use Rattle.affc_replay.specs.Laws.{ValidIsReplayed, ValidIsNotRefused, CertifiedIsReplayed, ReplaysTheSame};

use affc_foldprint::laws::{folds_compile, folds_keep_times, folds_well_named};
use affc_loopends::bounding::laws::programs_scan;
use affc_loopends::scanned::laws::same_loops_scan;
use affc_weigh::laws::Costing;

/// Exactly where the certificate is one of the source and its plan there is a text.
pub fn valid_is_replayed()
    ensures law { ValidIsReplayed }
{
    folds_keep_times();
    programs_scan();
    same_loops_scan();
    folds_well_named();
    folds_compile();
}

/// Then want of memory alone is answered in its place.
pub fn valid_is_not_refused()
    ensures law { ValidIsNotRefused }
{}

/// A certificate that was made is replayed to the text that was made with it.
pub fn certified_is_replayed<C: Costing>()
    ensures law { CertifiedIsReplayed C.answers }
{
    folds_well_named();
    folds_compile();
}

/// Whatever else it is replayed to is printed of the same program.
pub fn replays_the_same<C: Costing>()
    ensures law { ReplaysTheSame C.answers }
{}
