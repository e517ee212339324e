//! A folder of two files, as laws: `specs/Examples.antt` says each.
ghost use Rattle.std.specs.Prelude.{◌≡◌, ◌∷◌, [], Some};
ghost use Rattle.affc_io.specs.Examples.{two, AllBytesAreHeld, MissingIsNotHeld, LongIsPastTheLimit, AFrontIsLeft, CountsRiseToTheirEnd, StaysOnlyWhereTold, AreThreeReads};
ghost use Rattle.affc_io.specs.Parts.{folder_state, folder_fails, folder_calls, folder_reads};

use crate::{Folder, MemFolder};
use std::alloc::Global;

/// What the folder holds, and what is left of it.
pub fn held()
    ensures all_bytes_are_held { AllBytesAreHeld }
    ensures missing_is_not_held { MissingIsNotHeld }
    ensures long_is_past_the_limit { LongIsPastTheLimit }
    ensures a_front_is_left { AFrontIsLeft }
{}

/// Its counts.
pub fn counts()
    ensures rise_to_their_end { CountsRiseToTheirEnd }
    ensures stay_only_where_told { StaysOnlyWhereTold }
{}

/// Three reads of the folder in memory, of which the second fails.
pub fn reads(alloc: Global, folder: &mut MemFolder)
    requires held { (folder_state folder.old).held ≡ Some two }
    requires fails { folder_fails folder.old ≡ 1 ∷ [] }
    requires calls { folder_calls folder.old ≡ 0 }
    requires reads { folder_reads folder.old ≡ [] }
    ensures logged { AreThreeReads (folder_reads folder.new) }
{
    let _ = folder.read(alloc, "a");
    let _ = folder.read(alloc, "b");
    let _ = folder.read(alloc, "c");
}
