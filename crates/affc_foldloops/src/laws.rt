//! What may be concluded of programs that stand for a source at places. Each law is the contract of a function that does
//! nothing.
ghost use Rattle.affc_foldloops.specs.Laws.{RefoldedKeepsShape, RefoldedEffect, RefoldedStands, RefoldedReplaces, SourceRunsPlaced, FoldedSourceCompiles, BetweenDoPlaced, BetweenRunPlaced, FoldedBetweenCompile, RefoldedBetweenCompile, RemainderIsRead, PlaceLiesWithin};

/// A program with other subscripts and temporaries has the instances and loops that it had.
pub fn refolded_keeps_shape()
    ensures law { RefoldedKeepsShape }
{}

/// Its assignments do the same at the places.
pub fn refolded_effect()
    ensures law { RefoldedEffect }
{}

/// It stands for the program that it was.
pub fn refolded_stands()
    ensures law { RefoldedStands }
{}

/// With the subscripts and extents of folds it replaces its source.
pub fn refolded_replaces()
    ensures law { RefoldedReplaces }
{}

/// In the source's own order a program that replaces it does its instances at the places.
pub fn source_runs_placed()
    ensures law { SourceRunsPlaced }
{}

/// With folds that obey it compiles the source.
pub fn folded_source_compiles()
    ensures law { FoldedSourceCompiles }
{}

/// Between any ends that hold the times the loops of a program that stands for the source do the target's instances at the places.
pub fn between_do_placed()
    ensures law { BetweenDoPlaced }
{}

/// The loops of a program that replaces the source are stuck, if at all, for want of a value.
pub fn between_run_placed()
    ensures law { BetweenRunPlaced }
{}

/// With folds that obey they compile the source.
pub fn folded_between_compile()
    ensures law { FoldedBetweenCompile }
{}

/// So do those of the source with the subscripts and extents of the folds.
pub fn refolded_between_compile()
    ensures law { RefoldedBetweenCompile }
{}

/// A remainder is read, and is below its divisor.
pub fn remainder_is_read()
    ensures law { RemainderIsRead }
{}

/// A place lies within the moduli.
pub fn place_lies_within()
    ensures law { PlaceLiesWithin }
{}
