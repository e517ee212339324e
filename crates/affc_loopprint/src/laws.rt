//! What is printed of a schedule's loops reads as them. Each law is the contract of a function that does nothing.
ghost use Rattle.affc_loopprint.specs.Laws.{ReadsSpare, SpareWellNamed, BetweenWellNamed};

/// A bare program that a text reads as has room for loops.
pub fn reads_spare()
    ensures law { ReadsSpare }
{}

/// A program that has room for loops is well named.
pub fn spare_well_named()
    ensures law { SpareWellNamed }
{}

/// So are its loops between ends by few and small rows.
pub fn between_well_named()
    ensures law { BetweenWellNamed }
{}
