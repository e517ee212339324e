//! What the limits of a text give of its tree. Each law is the contract of a function that does nothing.
ghost use Rattle.affc_plain.specs.Laws.{ReadsPlain, PlainHasNoLocals};

/// The program that a text reads as is plain, where it has no prelude, no `else`, and conditions of comparisons joined by `&&` alone.
pub fn reads_plain()
    ensures law { ReadsPlain }
{}

/// A plain program has no locals.
pub fn plain_has_no_locals()
    ensures law { PlainHasNoLocals }
{}
