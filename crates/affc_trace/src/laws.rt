//! What may be concluded about a program that is reordered and folded. Each law is the contract of a function
//! that does nothing.
ghost use Rattle.affc_trace.specs.Laws.{RunOfEffects, EffectsOfTrace, TargetIsReordered, TargetIsInOrder, TargetIsByTime, ValuesByInstance, LoadsWithoutSource, SourceInItsOwnWords, SourceIsFound, LivePairsAreFound, ViolationsAreFound, LegalHasNoViolations, FittingDataIsKept, EqualLastStores, KeepsSources, RunsAsSource, CompilesSource, PremisesCompile};

/// A run is the fold of the effects of the program's assignments.
pub fn run_of_effects()
    ensures law { RunOfEffects }
{}

/// A program without locals does what its trace's instances do, in order.
pub fn effects_of_trace()
    ensures law { EffectsOfTrace }
{}

/// The trace and the target have the same instances, each once.
pub fn target_is_reordered()
    ensures law { TargetIsReordered }
{}

/// The target of times is the one list of the trace's instances in increasing order of time and then of statement.
pub fn target_is_in_order()
    ensures law { TargetIsInOrder }
{}

/// One instance stands before another in that target exactly where it is less, by time and then by statement.
pub fn target_is_by_time()
    ensures law { TargetIsByTime }
{}

/// The source of a load is the last write before it, said by the order of the trace alone.
pub fn source_in_its_own_words()
    ensures law { SourceInItsOwnWords }
{}

/// The list of sources holds each load's source.
pub fn source_is_found()
    ensures law { SourceIsFound }
{}

/// The list of live pairs holds exactly these.
pub fn live_pairs_are_found()
    ensures law { LivePairsAreFound }
{}

/// The list of violations holds exactly the dependences that are turned round.
pub fn violations_are_found()
    ensures law { ViolationsAreFound }
{}

/// A schedule is legal exactly where that list is empty.
pub fn legal_has_no_violations()
    ensures law { LegalHasNoViolations }
{}

/// In a run that ends, each instance stores one value.
pub fn values_by_instance()
    ensures law { ValuesByInstance }
{}

/// Arrays that are handed in are found at their places, which they share with nothing.
pub fn fitting_data_is_kept()
    ensures law { FittingDataIsKept }
{}

/// A load without a source is of an element that is handed in.
pub fn loads_without_source()
    ensures law { LoadsWithoutSource }
{}

/// Where each load's last store is by the instance whose value it reads in the source, every value is the source's.
pub fn equal_last_stores()
    ensures law { EqualLastStores }
{}

/// A legal schedule and admissible places keep each load's source.
pub fn keeps_sources()
    ensures law { KeepsSources }
{}

/// A program that runs the target follows its source and gives the same outputs.
pub fn runs_as_source()
    ensures law { RunsAsSource }
{}

/// The same for all data that fit.
pub fn compiles_source()
    ensures law { CompilesSource }
{}

/// The same with the premises as a record.
pub fn premises_compile()
    ensures law { PremisesCompile }
{}
