//! What is the first fault of small programs, as laws: `specs/Examples.antt` says each.
ghost use Rattle.affc_bounds.specs.Examples.{LesserArrayFirst, LesserParametersFirst, OnlyInTheContext, ParametersBeforeStatements, StatementsThenIterators, LoadsBeforeTheStore};

/// The first extent below 1: by p, and then by the array.
pub fn extents()
    ensures arrays { LesserArrayFirst }
    ensures parameters { LesserParametersFirst }
    ensures context { OnlyInTheContext }
{}

/// The first access outside: by p, the statement, the iterators and the access.
pub fn accesses()
    ensures parameters { ParametersBeforeStatements }
    ensures iterators { StatementsThenIterators }
    ensures access { LoadsBeforeTheStore }
{}
