//! The clash systems of small programs, as laws: `specs/Examples.antt` says each, with rows that were found by hand.
ghost use Rattle.affc_life.specs.Examples.{BlurHasTwelve, BlurHasSix, OthersHaveNone, MiddleClashes, ChainClashes, OwnStoreIsNone, HalvedClashes, BothOrders, NeverLoaded, AcrossArrays, AcrossOrders, LivesToLastLoad, OwnStoreAlone, DepthsOfTrees, DimensionsInTurn, RowsInTurn, LastOneIsNoLoad, NoneOfTheDead};

/// A blur of two statements, at the times i and i + 2, and in the order of the text.
pub fn blur()
    ensures twelve { BlurHasTwelve }
    ensures six { BlurHasSix }
    ensures others { OthersHaveNone }
    ensures middle { MiddleClashes }
{}

/// A chain whose elements are never live together, and a tree with a quotient.
pub fn chain()
    ensures clashes { ChainClashes }
    ensures own_store { OwnStoreIsNone }
    ensures halved { HalvedClashes }
{}

/// Statements without loops: a pair that is live in both orders, values that are never loaded, and walks over two arrays and
/// between two orders.
pub fn straight()
    ensures both_orders { BothOrders }
    ensures never_loaded { NeverLoaded }
    ensures arrays { AcrossArrays }
    ensures orders { AcrossOrders }
{}

/// How long an element lives: to its last load, which its instance's own store comes after.
pub fn lifetimes()
    ensures last_load { LivesToLastLoad }
    ensures own_store { OwnStoreAlone }
{}

/// How deep a tree may be.
pub fn depths()
    ensures law { DepthsOfTrees }
{}

/// Which elements differ, in which order the rows of a clash stand, and which accesses load.
pub fn parts()
    ensures dimensions { DimensionsInTurn }
    ensures rows { RowsInTurn }
    ensures last { LastOneIsNoLoad }
    ensures dead { NoneOfTheDead }
{}
