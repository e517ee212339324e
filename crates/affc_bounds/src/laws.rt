//! What a fault says of a program's runs, and what it says that there is none. Each law is the contract of a function
//! that does nothing.
ghost use Rattle.affc_bounds.specs.Laws.{NarrowIsStuck, OutsideIsStuck, StayingIsSafe, StayingEnds, FaultsDoNotStay, OneFault};

/// A plain program is stuck, from all data that fit, at each p at which an extent is below 1 or an access lies outside.
pub fn faults_are_stuck()
    ensures narrow { NarrowIsStuck }
    ensures outside { OutsideIsStuck }
{}

/// Where nothing is wrong with a program without temporaries, it is safe at each p of the context, and its runs end.
pub fn staying_is_safe()
    ensures safe { StayingIsSafe }
    ensures ends { StayingEnds }
{}

/// Nothing is wrong with a program, or one thing.
pub fn one_fault()
    ensures none { FaultsDoNotStay }
    ensures one { OneFault }
{}
