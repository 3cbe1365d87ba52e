//! Counts of the contents of a node, from the faces that keep them.

ghost use Rattle.std.specs.Prelude.{◌≡◌};
ghost use Rattle.atspi_faces.specs.face.Nodes as nodes;
ghost use Rattle.atspi_app_answers.specs.Counted as counted;
ghost use Rattle.atspi_app_answers.specs.Laws.{AreFaces};
ghost use Rattle.atspi_app_exported.specs.Parts.{AreKinds, faces_of, kinds_of};

use atspi_app_answers::Counts;
use atspi_faces::face::{Face, FaceKind};
use atspi_faces::guarded::is_here;

/// Where the caret of a node's text stands, 0 where the node has none.
fn caret_at<C: Face>(texts: &C, node: u32) -> u32
    requires { C.of_kind texts.now ≡ FaceKind.Chars }
    ensures { result ≡ nodes.caret_at (C.nodes texts.now) node }
{
    let _ = texts.kind();
    if is_here(texts, node) {
        return texts.caret(node);
    }
    0
}

/// How much the contents of a node have.
pub(crate) fn counts_at<C: Face, G: Face, D: Face>(
    texts: &C,
    columns: &G,
    actions: &D,
    node: u32,
) -> Counts
    requires { AreKinds (kinds_of (C.of_kind texts.now) (G.of_kind columns.now) (D.of_kind actions.now)) }
    ensures counts { result
        ≡ counted.counts_at (faces_of (C.nodes texts.now) (G.nodes columns.now) (D.nodes actions.now)) node }
    ensures faces { AreFaces (faces_of (C.nodes texts.now) (G.nodes columns.now) (D.nodes actions.now)) }
{
    let _ = texts.kind();
    let _ = columns.kind();
    let _ = actions.kind();
    Counts {
        characters: texts.count(node),
        caret: caret_at(texts, node),
        columns: columns.count(node),
        actions: actions.count(node),
    }
}
