//! A text as the contents that edits read.

ghost use Rattle.std.specs.Prelude.{◌≡◌, IfOk};
ghost use Rattle.atspi_app_contents.specs.texts.Texts.{KeepsText, contents_at};

use crate::texts::values::is_here;
use atspi_base::{NoMemory, Texts};
use atspi_faces::face::{Face, FaceData};
use std::alloc::Global;

/// The text of a node with its caret and what is selected, as the contents that edits read; no actions where it has no
/// text. The one refusal is want of memory.
pub fn known_text<C: Face>(alloc: Global, texts: &C, node: u32) -> Result<FaceData, NoMemory>
    requires { KeepsText (C.of_kind texts.now) (C.nodes texts.now) node }
    ensures { IfOk result (λ known. known ≡ contents_at (C.nodes texts.now) node) }
{
    let _ = texts.kind();
    if !is_here(texts, node) {
        return Ok(FaceData::Deeds(Texts::new(alloc)));
    }
    let text = texts.part(node, 0, texts.count(node))?;
    let marks = texts.marks(node)?;
    let caret = texts.caret(node);
    Ok(FaceData::Chars { text, caret, marks })
}
