//! The returns to calls for all items, and for parts.

ghost use Rattle.atspi_trace_laws.specs.answered.Laws.{ItemsAreTold, PartsAreTold};

/// What a reader takes as the return to its call for all items of an application is what that application answered to
/// this call: it tells the view of the tree as it was when the return was sent, with the application's own name. Of
/// each front of a lawful trace.
pub fn items_are_told()
    ensures { ItemsAreTold }
{}

/// What a reader takes as the return to its call for a part of a node is that part of the tree as it was when the
/// return was sent: with it the view of one who was told some parts becomes that of one who was told this one too. Of
/// each front of a lawful trace.
pub fn parts_are_told()
    ensures { PartsAreTold }
{}
