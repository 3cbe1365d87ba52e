//! Laws of announcements and views, of each front of a lawful trace too.

ghost use Rattle.atspi_trace_laws.specs.views.Laws.{TreesStand, AnnouncementsCarryViews};

/// What a step changes is a tree.
pub fn trees_stand()
    ensures { TreesStand }
{}

/// The news in a step's signals are its announcement and its echoes; the announcement makes the view of the live tree
/// behind the step out of the view of that before it, whatever parts of it were told, and the echoes change nothing and
/// ask for nothing.
pub fn announcements_carry_views()
    ensures { AnnouncementsCarryViews }
{}
