//! What a compilation's answers say of a source and of its runs. Each law is the contract of a function that does nothing.
ghost use Rattle.affc_driver.specs.Laws.{ReadsNamingArrays, CompilesItself, WithinNeverStuck, NamedIsWritten, PrintedCompiles, TextsRunTightly, UnlimitedFoldsAll, NoneIsCheaper, FaultsShow, UnwrittenShows, IllegalShows, FoldableIsFolded, FoldedIsFoldable, FoldableIsNotRefused, UnlimitedIsNotRefused, FlowsAreSound, SoundIsNotRefused};

use affc_foldprint::laws::{folds_compile, folds_keep_times, folds_run_tightly, folds_well_named};
use affc_loopends::bounding::laws::programs_scan;
use affc_loopends::scanned::laws::same_loops_scan;
use affc_weigh::laws::Costing;

/// The program that a text reads as names arrays.
pub fn reads_naming_arrays()
    ensures law { ReadsNamingArrays }
{}

/// A program that is never stuck compiles itself.
pub fn compiles_itself()
    ensures law { CompilesItself }
{}

/// A program that stays within its arrays and writes each element of a temporary before it loads it is never stuck.
pub fn within_never_stuck()
    ensures law { WithinNeverStuck }
{}

/// A program does the latter where trees name the sources of its loads, and always one for a load of a temporary.
pub fn named_is_written()
    ensures law { NamedIsWritten }
{}

/// What is printed of the loops of a legal schedule, with folds, compiles the text that the program was read from.
pub fn printed_compiles<C: Costing>()
    ensures law { PrintedCompiles C.answers }
{
    folds_well_named();
    folds_compile();
}

/// Where one statement alone can have instances and no component is loose, each turn of the printed loops extends to a point of its time set.
pub fn texts_run_tightly<C: Costing>()
    ensures law { TextsRunTightly C.answers }
{
    folds_run_tightly();
}

/// Without a limit on what is spent, or with one of at least the threshold, each temporary is folded, by moduli that are shown to be least, and
/// all listed bases are priced.
pub fn unlimited_folds_all<C: Costing>()
    ensures law { UnlimitedFoldsAll C.answers }
{}

/// No large enough fold over a listed basis costs less than one that was chosen.
pub fn none_is_cheaper<C: Costing>()
    ensures law { NoneIsCheaper C.answers }
{}

/// Where a program leaves its arrays it is stuck; where its context is empty no data fit.
pub fn faults_show()
    ensures law { FaultsShow }
{}

/// Where a load of a temporary is unwritten, each run is stuck.
pub fn unwritten_shows()
    ensures law { UnwrittenShows }
{}

/// What is shown of an illegal schedule is a dependence that it turns round.
pub fn illegal_shows()
    ensures law { IllegalShows }
{}

/// Exactly a text whose program is never stuck, and whose schedule is legal, has one that it is folded to where nothing is limited.
pub fn foldable_is_folded<C: Costing>()
    ensures law { FoldableIsFolded C.answers }
{
    folds_keep_times();
    programs_scan();
    same_loops_scan();
    folds_well_named();
    folds_compile();
}

/// Whatever is left of a budget, no other text has one.
pub fn folded_is_foldable<C: Costing>()
    ensures law { FoldedIsFoldable C.answers }
{}

/// Such a text is refused for want of budget or of memory, and for nothing else, by `fold`, with a certificate or without.
pub fn foldable_is_not_refused()
    ensures law { FoldableIsNotRefused }
{}

/// Without a limit on what is spent, or with one of at least the threshold, each refuses it for want of memory alone.
pub fn unlimited_is_not_refused()
    ensures law { UnlimitedIsNotRefused }
{}

/// Trees are told only of a text whose program is never stuck.
pub fn flows_are_sound()
    ensures law { FlowsAreSound }
{}

/// They are refused for want of budget or of memory, and for nothing else.
pub fn sound_is_not_refused()
    ensures law { SoundIsNotRefused }
{}
