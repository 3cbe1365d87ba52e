//! Laws of whole trees.

ghost use Rattle.atspi_protocol.specs.whole.Laws.{ShapeIsKept, StepsAreFollowed};

/// A step that applies to the whole tree, done to the shape and to the faces, makes the whole tree after it; and the
/// faces still know only nodes of the tree.
pub fn steps_are_followed()
    ensures { StepsAreFollowed }
{}

/// The shape of a whole tree is the shape that it was made of.
pub fn shape_is_kept()
    ensures { ShapeIsKept }
{}
