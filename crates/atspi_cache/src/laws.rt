//! The law of caches: the contract of a function without a body, so that it is proved with the crate.

ghost use Rattle.atspi_cache.specs.Laws.{ViewsStayViews};

/// Whatever the items and the news, a stranger's too: in each view every path stands once, and each row but the root's
/// has its parent in the view.
pub fn views_stay_views()
    ensures { ViewsStayViews }
{}
