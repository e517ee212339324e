//! What trees that are found may be asked, as the contract of a function that does nothing.
ghost use Rattle.affc_dataflow.specs.Finds.{FoundMayBeAsked};

/// Trees like those that are found may be asked for the source at each instance of the context.
pub fn found_may_be_asked()
    ensures law { FoundMayBeAsked }
{}
