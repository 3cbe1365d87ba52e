//! Laws of traces, over the definitions that the world and the headline cite.

ghost use Rattle.atspi_trace.specs.Laws.{LinksFollowQueues, RulesAreRead, WorksOneWay};

/// The bus of a trace, its queues of bytes included, is the bus of its own definitions.
pub fn links_follow_queues()
    ensures { LinksFollowQueues }
{}

/// Each match rule that an end of a world asks for is what its text spells.
pub fn rules_are_read()
    ensures { RulesAreRead }
{}

/// What is left of a line at work is done in one way.
pub fn works_in_one_way()
    ensures { WorksOneWay }
{}
