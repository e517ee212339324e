//! The loops of small programs, as laws: `specs/Examples.antt` says each, as it was found by hand.
ghost use Rattle.affc_loopprint.specs.Examples.{LoopsAreKept, KeptNamesClash, LocalsAreLost};

/// Loops that are well named, and the loops of two programs that are well named but have no room for loops.
pub fn programs()
    ensures loops_are_kept { LoopsAreKept }
    ensures kept_names_clash { KeptNamesClash }
    ensures locals_are_lost { LocalsAreLost }
{}
