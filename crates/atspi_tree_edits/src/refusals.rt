//! The first reason to refuse an edit.

ghost use Rattle.std.specs.Prelude.{◌≡◌, ◌+◌, [], ◌∷◌, ◌||◌, not, true, nat_lt, nat_le, length};
ghost use Rattle.atspi_tree_model.specs.Edits.{first_fault, refusals, lacks_node, lacks_kind, is_long_name};
ghost use Rattle.atspi_tree_model.specs.Edits.{is_long_text, known_text};
ghost use Rattle.atspi_tree_model.specs.Forest.{has};
ghost use Rattle.atspi_tree_model.specs.Tree.{is_shape};
ghost use Rattle.atspi_tree_model.specs.declared.contents.FaceData.TheVariants.{Deeds};
ghost use Rattle.atspi_tree_model.specs.declared.edit.Edit.TheVariants.{Caret, Cut, Keys, Mark, Put, Remove, Unmark};
ghost use Rattle.atspi_tree_model.specs.declared.edit.EditFault.TheVariants.{NoFace, NoNode, TextFull};
ghost use Rattle.atspi_tree.specs.TreeShape.{IsLawful};
ghost use Rattle.atspi_tree_edits.specs.inner.Face.{kind_of};

use crate::parts::{is_long_name, is_long_text};
use atspi_base::Text;
use atspi_tree::Tree;
use atspi_tree_model::{EditFault, FaceData};

/// An interface that an edit asks for.
#[derive(Clone, Copy)]
pub(crate) enum Face {
    Text,
    Editable,
    Selection,
    Action,
}

/// The reason to refuse an edit that only wants its node.
pub(crate) fn node_fault(tree: &Tree, node: u32) -> Option<EditFault>
    ensures { result ≡ first_fault ((lacks_node tree.now.rows node, NoNode) ∷ []) }
{
    if tree.has(node) {
        None
    } else {
        Some(EditFault::NoNode)
    }
}

/// The reason to refuse a removal.
pub(crate) fn remove_fault(tree: &Tree, node: u32) -> Option<EditFault>
    ensures { result ≡ first_fault (refusals tree.now.rows tree.now.added (Deeds []) (Remove node)) }
{
    if !tree.has(node) {
        return Some(EditFault::NoNode);
    }
    if node == 0 {
        return Some(EditFault::IsRoot);
    }
    None
}

/// The reason to refuse a name or a description.
pub(crate) fn name_fault(tree: &Tree, node: u32, text: &Text) -> Option<EditFault>
    ensures { result ≡ first_fault ((lacks_node tree.now.rows node, NoNode) ∷ (is_long_name text.now, TextFull) ∷ []) }
{
    if !tree.has(node) {
        return Some(EditFault::NoNode);
    }
    if is_long_name(text) {
        return Some(EditFault::TextFull);
    }
    None
}

/// Whether a node that is there has an interface.
pub(crate) fn has_face(tree: &Tree, node: u32, face: Face) -> bool
    requires there { has (is_shape node) tree.now.rows ≡ true }
    requires lawful { IsLawful tree.now }
    ensures { lacks_kind (kind_of face) tree.now.rows node ≡ not result }
{
    let kinds = tree.kinds(node);
    match face {
        Face::Text => kinds.text,
        Face::Editable => kinds.editable,
        Face::Selection => kinds.selection,
        Face::Action => kinds.action,
    }
}

/// The reason to refuse an edit that wants its node, with an interface.
pub(crate) fn face_fault(tree: &Tree, node: u32, face: Face) -> Option<EditFault>
    ensures { result
        ≡ first_fault
        ((lacks_node tree.now.rows node, NoNode) ∷ (lacks_kind (kind_of face) tree.now.rows node, NoFace) ∷ []) }
{
    if !tree.has(node) {
        return Some(EditFault::NoNode);
    }
    if !has_face(tree, node, face) {
        return Some(EditFault::NoFace);
    }
    None
}

/// How many characters the text has that is known.
pub(crate) fn known_count(known: &FaceData) -> u32
    ensures { result ≡ length (known_text known.now).characters }
{
    match known {
        FaceData::Chars { text, .. } => text.count(),
        _ => 0,
    }
}

/// Where the caret of the text stands that is known.
pub(crate) fn known_caret(known: &FaceData) -> u32
    ensures { result ≡ (known_text known.now).caret }
{
    match known {
        FaceData::Chars { caret, .. } => *caret,
        _ => 0,
    }
}

/// How many ranges are selected of the text that is known.
pub(crate) fn known_marks(known: &FaceData) -> usize
    ensures { result ≡ length (known_text known.now).selections }
{
    match known {
        FaceData::Chars { marks, .. } => marks.len(),
        _ => 0,
    }
}

/// The reason to refuse that a text is put in.
pub(crate) fn put_fault(
    tree: &Tree,
    node: u32,
    at: u32,
    text: &Text,
    known: &FaceData,
) -> Option<EditFault>
    ensures { result ≡ first_fault (refusals tree.now.rows tree.now.added known.now (Put node at text.now)) }
{
    if let Some(fault) = face_fault(tree, node, Face::Editable) {
        return Some(fault);
    }
    let count = known_count(known);
    if at > count {
        return Some(EditFault::BadOffset);
    }
    if is_long_text(u64::from(count) + u64::from(text.count())) {
        return Some(EditFault::TextFull);
    }
    None
}

/// The reason to refuse that a text is typed.
pub(crate) fn keys_fault(tree: &Tree, node: u32, text: &Text, known: &FaceData) -> Option<EditFault>
    ensures { result ≡ first_fault (refusals tree.now.rows tree.now.added known.now (Keys node text.now)) }
{
    if let Some(fault) = face_fault(tree, node, Face::Editable) {
        return Some(fault);
    }
    if is_long_text(u64::from(known_count(known)) + u64::from(text.count())) {
        return Some(EditFault::TextFull);
    }
    None
}

/// The reason to refuse that characters are cut out.
pub(crate) fn cut_fault(
    tree: &Tree,
    node: u32,
    from: u32,
    to: u32,
    known: &FaceData,
) -> Option<EditFault>
    ensures { result ≡ first_fault (refusals tree.now.rows tree.now.added known.now (Cut node from to)) }
{
    if let Some(fault) = face_fault(tree, node, Face::Editable) {
        return Some(fault);
    }
    if to < from || known_count(known) < to {
        return Some(EditFault::BadOffset);
    }
    None
}

/// The reason to refuse another place of the caret.
pub(crate) fn caret_fault(tree: &Tree, node: u32, at: u32, known: &FaceData) -> Option<EditFault>
    ensures { result ≡ first_fault (refusals tree.now.rows tree.now.added known.now (Caret node at)) }
{
    if let Some(fault) = face_fault(tree, node, Face::Text) {
        return Some(fault);
    }
    if known_count(known) < at {
        return Some(EditFault::BadOffset);
    }
    None
}

/// The reason to refuse another selection.
pub(crate) fn mark_fault(
    tree: &Tree,
    node: u32,
    from: u32,
    to: u32,
    known: &FaceData,
) -> Option<EditFault>
    ensures { result ≡ first_fault (refusals tree.now.rows tree.now.added known.now (Mark node from to)) }
{
    if let Some(fault) = face_fault(tree, node, Face::Text) {
        return Some(fault);
    }
    if to <= from || known_count(known) < to || known_marks(known) >= 16 {
        return Some(EditFault::BadOffset);
    }
    None
}
