//! Which programs are scanned. Each law is the contract of a function that does nothing.
ghost use Rattle.affc_scan.specs.Laws.{OwnNest};

/// A source's own nest is one for it.
pub fn own_nest()
    ensures law { OwnNest }
{}
