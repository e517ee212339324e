//! What the definitions give at small lists, as laws: `specs/Examples.antt` says each.
ghost use Rattle.affc_folds.specs.Examples.{BasesOfArrays, SpentOrNot, WholeOrNot, SecondMarkIsFalse, LowestPrices, FirstOrFound, VoidInTheBox, CopiesInAll, KeptOrNot, AddedOrNot, FoldsOfBlur};

/// Given bases and listed ones.
pub fn bases()
    ensures law { BasesOfArrays }
{}

/// Budgets of which nothing is left, and others; arrays that are left whole, and others.
pub fn ends()
    ensures spent { SpentOrNot }
    ensures whole { WholeOrNot }
{}

/// The first of the lowest prices.
pub fn prices()
    ensures law { LowestPrices }
{}

/// A fold that is made again along the basis that is chosen, and is taken or not.
pub fn again()
    ensures law { FirstOrFound }
{}

/// Systems that are copied, and kept or left out.
pub fn systems()
    ensures void { VoidInTheBox }
    ensures copies { CopiesInAll }
    ensures kept { KeptOrNot }
    ensures added { AddedOrNot }
{}

/// Folds of a program, and lists that are none for one rule each; a mark that isn't true.
pub fn folds()
    ensures marks { SecondMarkIsFalse }
    ensures all { FoldsOfBlur }
{}
