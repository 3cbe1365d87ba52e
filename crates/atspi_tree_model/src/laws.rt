//! The laws of trees, views and news. Each is the contract of a function without a body, so that it is proved with the
//! crate; the crates above cite the same definitions.

ghost use Rattle.atspi_tree_model.specs.Laws.{BeginsAsTree, StepsKeepTrees, AddedStandsThere, MovedStandsThere};
ghost use Rattle.atspi_tree_model.specs.Laws.{ShapeIsTree, ShapeApplies, ShapeFollows, EditsApply, PathsTellNodes};
ghost use Rattle.atspi_tree_model.specs.Laws.{StepsAreSeen, PartsAreSeen, ItemsAreSeen, LoadMakesView, NewsKeepViews};
ghost use Rattle.atspi_tree_model.specs.Laws.{LoadIsComplete};
ghost use Rattle.atspi_tree_model.specs.Map.{TreesAreMaps, MapsTellTrees, MapsAreTrees};
ghost use Rattle.atspi_tree_model.specs.RowRules.{rows, shapes};

/// An application's tree begins as a tree, and each step that applies keeps it one; so does the shape alone.
pub fn steps_keep_trees()
    ensures begins { BeginsAsTree rows }
    ensures kept { StepsKeepTrees rows }
    ensures shape_begins { BeginsAsTree shapes }
    ensures shape_kept { StepsKeepTrees shapes }
{}

/// A tree is a finite map from a node's number to its row and the numbers of its children, in which each node but the
/// root stands once in exactly one list of children and is reached from the root; the map tells the tree, and each such
/// map is the map of a tree.
pub fn trees_are_maps()
    ensures rows { TreesAreMaps rows }
    ensures shapes { TreesAreMaps shapes }
    ensures rows_told { MapsTellTrees rows }
    ensures shapes_told { MapsTellTrees shapes }
    ensures rows_grown { MapsAreTrees rows }
    ensures shapes_grown { MapsAreTrees shapes }
{}

/// A node that was added or moved stands in the tree after the step where the step says, and so where the announcement
/// says.
pub fn steps_say_where()
    ensures added { AddedStandsThere rows }
    ensures moved { MovedStandsThere rows }
    ensures shape_added { AddedStandsThere shapes }
    ensures shape_moved { MovedStandsThere shapes }
{}

/// The shape of a tree is a tree of shapes, and the shape after a step is the shape of the tree after it: what is kept
/// of the shape alone may be told as of the whole.
pub fn shapes_follow()
    ensures tree { ShapeIsTree }
    ensures applies { ShapeApplies }
    ensures follows { ShapeFollows }
{}

/// Each step that an edit makes applies to the tree after the steps before it.
pub fn edits_apply()
    ensures { EditsApply }
{}

/// No two nodes have one path.
pub fn paths_tell_nodes()
    ensures { PathsTellNodes }
{}

/// A reader that holds the view of a tree, and takes what a step announces, holds the view of the tree after the step;
/// the echoes that follow change nothing and ask for no reload. The answer to a call for a part makes that part known.
pub fn steps_are_seen()
    ensures steps { StepsAreSeen }
    ensures parts { PartsAreSeen }
{}

/// A reader that loads the items of a tree holds its view, with no text, caret or count of columns known yet.
pub fn items_are_seen()
    ensures { ItemsAreSeen }
{}

/// Whatever the items and the news, a stranger's too: each path stands once, all rows stand below the root's, and a
/// load leaves out nothing that the root reaches.
pub fn views_stay_views()
    ensures loaded { LoadMakesView }
    ensures kept { NewsKeepViews }
    ensures complete { LoadIsComplete }
{}
