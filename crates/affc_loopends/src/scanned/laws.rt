//! What holds of scanned programs. Each law is the contract of a function that does nothing.
ghost use Rattle.affc_loopends.specs.scanned.Laws.{ScansRunBetween, ScansRunTarget, ScansCompile, TurnsExtend, SameLoopsScan};

/// The loops of a scanned program run between ends that hold the times of all instances.
pub fn scans_run_between()
    ensures law { ScansRunBetween }
{}

/// So they run the target's instances, each once and in order, and no number leaves `int64_t`.
pub fn scans_run_target()
    ensures law { ScansRunTarget }
{}

/// Under a legal schedule a scanned program compiles its source.
pub fn scans_compile()
    ensures law { ScansCompile }
{}

/// Where one statement alone can have instances and no component is loose, each turn extends to a point of its time set.
pub fn turns_extend()
    ensures law { TurnsExtend }
{}

/// What is scanned of a source may be scanned of each program with its loops, conditions and context.
pub fn same_loops_scan()
    ensures law { SameLoopsScan }
{}
