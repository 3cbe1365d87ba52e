//! What the tables have of a node.

ghost use Rattle.std.specs.Prelude.{◌≡◌, Some, IfOk};
ghost use Rattle.std.specs.FinMap as map;
ghost use Rattle.atspi_tree_model.specs.View.{caret_of, characters_of};
ghost use Rattle.atspi_faces.specs.face.Nodes.{HasText};
ghost use Rattle.atspi_protocol.specs.whole.Whole.{as_text};

use atspi_base::{NoMemory, Text};
use atspi_faces::face::Face;

/// The characters of a text.
pub(crate) fn text_at<F: Face>(chars: &F, node: u32) -> Result<Text, NoMemory>
    requires { HasText (F.nodes chars.now) node }
    ensures { IfOk result (λ text. characters_of (as_text (map.get (F.nodes chars.now) node)) ≡ Some text) }
{
    let count = chars.count(node);
    chars.part(node, 0, count)
}

/// The caret of a text.
pub(crate) fn caret_at<F: Face>(chars: &F, node: u32) -> u32
    requires { HasText (F.nodes chars.now) node }
    ensures { caret_of (as_text (map.get (F.nodes chars.now) node)) ≡ Some result }
{
    chars.caret(node)
}
