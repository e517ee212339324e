//! When a program's run ends. Each law is the contract of a function that does nothing.
ghost use Rattle.affc_safe.specs.Laws.{PlainNeverOverflows, StuckForAValue, SafeRuns, EndedIsSafe, UnsafeIsStuck, SomeStoreFits, NeverStuckIsSafe, SafeIsNeverStuck, UnwrittenInstance, NoTemporariesAreWritten, WithoutTemporariesSafe, ReasonsAreFound};

/// A plain program never overflows.
pub fn plain_never_overflows()
    ensures law { PlainNeverOverflows }
{}

/// What neither overflows nor leaves the extents is stuck, if at all, for want of a value.
pub fn stuck_for_a_value()
    ensures law { StuckForAValue }
{}

/// A plain program that is safe at p runs to its end, from each store that fits.
pub fn safe_runs()
    ensures law { SafeRuns }
{}

/// A program that runs to its end is safe at p.
pub fn ended_is_safe()
    ensures law { EndedIsSafe }
{}

/// A program that isn't safe at p is stuck, from each store that fits.
pub fn unsafe_is_stuck()
    ensures law { UnsafeIsStuck }
{}

/// At each p of the context some store fits.
pub fn some_store_fits()
    ensures law { SomeStoreFits }
{}

/// A program that is never stuck at p is safe there.
pub fn never_stuck_is_safe()
    ensures law { NeverStuckIsSafe }
{}

/// A plain program is safe exactly where it is never stuck.
pub fn safe_is_never_stuck()
    ensures law { SafeIsNeverStuck }
{}

/// A program that loads an element of a temporary before it is stored isn't safe.
pub fn unwritten_instance()
    ensures law { UnwrittenInstance }
{}

/// A program without temporaries has no load that needs a source.
pub fn no_temporaries_are_written()
    ensures law { NoTemporariesAreWritten }
{}

/// The same by the accesses of the text.
pub fn without_temporaries_safe()
    ensures law { WithoutTemporariesSafe }
{}

/// Whether a program is safe is found by enumeration.
pub fn reasons_are_found()
    ensures law { ReasonsAreFound }
{}
