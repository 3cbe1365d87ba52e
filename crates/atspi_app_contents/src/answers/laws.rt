//! What the faces of an application keep of its nodes.

ghost use Rattle.std.specs.Prelude.{◌≡◌, ℕ, true};
ghost use Rattle.atspi_tree_model.specs.declared.contents.FaceKind.{FaceKind};
ghost use Rattle.atspi_tree_model.specs.Forest.{has};
ghost use Rattle.atspi_tree_model.specs.RowRules.{rows};
ghost use Rattle.atspi_tree_model.specs.Tree.{is_shape, IsTree};
ghost use Rattle.atspi_tree.specs.TreeShape.{TreeShape};
ghost use Rattle.atspi_protocol.specs.whole.Whole.{Faces, whole};
ghost use Rattle.atspi_app_contents.specs.texts.Texts.{KeepsText};
ghost use Rattle.atspi_app_contents.specs.values.Seen.{KeepsContents};

/// Where a tree's shape and what three faces keep make a whole tree, the faces keep the contents of each of its nodes
/// within their limits.
pub fn a_whole_tree_keeps_its_contents()
    ensures { (tree : TreeShape) (faces : Faces) (added node : ℕ) (texts columns actions : FaceKind)
        → IsTree rows (whole tree.rows faces) added → has (is_shape node) tree.rows ≡ true → texts ≡ FaceKind.Chars
        → columns ≡ FaceKind.Grid → actions ≡ FaceKind.Deeds → KeepsContents texts columns actions faces node }
{}

/// Where faces keep the contents of a node within their limits, that of texts keeps its text so.
pub fn kept_contents_have_a_kept_text()
    ensures { (texts columns actions : FaceKind) (faces : Faces) (node : ℕ)
        → KeepsContents texts columns actions faces node → KeepsText texts faces.chars node }
{}
