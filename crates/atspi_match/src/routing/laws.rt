//! Laws of routing, over the definitions that the contracts of the bus cite.

ghost use Rattle.atspi_match.specs.routing.Laws.{QueuesStayWithin, TestsDecide};

/// Whatever the bus is given, what waits for each connection is at most the quota.
pub fn queues_stay_within()
    ensures { QueuesStayWithin }
{}

/// The test that routing uses decides whether a rule matches a message.
pub fn tests_decide()
    ensures { TestsDecide }
{}
