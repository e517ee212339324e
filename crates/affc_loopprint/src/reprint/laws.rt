//! What reads is printed as a text that reads. Each law is the contract of a function that does nothing.
ghost use Rattle.affc_loopprint.specs.reprint.Laws.{ReadsWellNamed};

/// The program that a text without the prelude reads as is well named: what is printed of it reads as it by the wide limits.
pub fn reads_well_named()
    ensures law { ReadsWellNamed }
{}
