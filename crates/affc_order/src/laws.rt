//! What the systems of an order say. Each law is the contract of a function that does nothing.
ghost use Rattle.affc_order.specs.Laws.{SourceOrderIsTheTrace, TargetOrderIsTheTarget, SystemsAreTheOrders, SchedulesAreAsked};

/// A point at which two instances are posed is one of the order's exactly where the first is earlier in the trace.
pub fn source_order_is_the_trace()
    ensures law { SourceOrderIsTheTrace }
{}

/// A point at which two instances are posed is one of the order's exactly where the first is earlier in the target.
pub fn target_order_is_the_target()
    ensures law { TargetOrderIsTheTarget }
{}

/// The systems of two statements hold p and the iterators of an instance of each exactly where the first is earlier, or
/// the second.
pub fn systems_are_the_orders()
    ensures law { SystemsAreTheOrders }
{}

/// The nest of a program and a schedule of that program may be asked.
pub fn schedules_are_asked()
    ensures law { SchedulesAreAsked }
{}
