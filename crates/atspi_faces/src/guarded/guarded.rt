//! Calls of a face that look first whether they may be made.

ghost use Rattle.std.specs.Prelude.{◌≡◌, ◌≤◌, None, IsSome};
ghost use Rattle.std.specs.Bool.{OnTrue, OnFalse};
ghost use Rattle.std.specs.Ordering.{nat_cmp};
ghost use Rattle.std.specs.FinMap as map;
ghost use Rattle.atspi_faces.specs.face.Contents.{kind_of, caret_of, count_of};
ghost use Rattle.atspi_faces.specs.face.Nodes.{At, HasText, HasPart, CanChange};

use crate::face::{Change, Face, FaceData, FaceKind};
use atspi_base::{Marks, NoMemory, Text};

/// Whether the node is here.
pub fn is_here<F: Face>(face: &F, node: u32) -> bool
    ensures here { OnTrue result (IsSome (map.get (F.nodes face.now) node)) }
    ensures absent { OnFalse result (map.get (F.nodes face.now) node ≡ None) }
{
    match face.next_node(node) {
        Some(next) => {
            if next == node {
                return true;
            }
            false
        }
        None => false,
    }
}

/// Whether the node has a text.
pub fn has_text<F: Face>(face: &F, node: u32) -> bool
    ensures { OnTrue result (HasText (F.nodes face.now) node) }
{
    if !is_here(face, node) {
        return false;
    }
    match face.kind() {
        FaceKind::Chars => true,
        FaceKind::Grid => false,
        FaceKind::Deeds => false,
    }
}

/// Whether the change may be made.
fn can_change<F: Face>(face: &F, node: u32, what: &Change) -> bool
    ensures { OnTrue result (CanChange (F.nodes face.now) node what.now) }
{
    if !has_text(face, node) {
        return false;
    }
    let count = face.count(node);
    let caret = face.caret(node);
    match what {
        Change::Insert { at, .. } => *at <= count,
        Change::Delete { at, len } => {
            let most = if caret < *at { *at } else { caret };
            u64::from(most) + u64::from(*len) <= u64::from(count)
        }
        Change::Caret(to) => *to <= count,
        Change::Marks(_) => true,
    }
}

/// Makes a change, or answers false where it may not be made.
pub fn change<F: Face>(face: &mut F, node: u32, what: &Change) -> Result<bool, NoMemory> {
    if !can_change(face, node, what) {
        return Ok(false);
    }
    face.change(node, what)?;
    Ok(true)
}

/// Opens a node, or hands its contents back, also where it may not be opened.
pub fn put<F: Face>(face: &mut F, node: u32, what: FaceData) -> Result<(), FaceData> {
    if is_here(face, node) || !is_right(face, &what) {
        return Err(what);
    }
    face.put_node(node, what)
}

/// Whether the contents are of the face's kind, with the caret inside.
fn is_right<F: Face>(face: &F, what: &FaceData) -> bool
    ensures kind { OnTrue result (kind_of what.now ≡ F.of_kind face.now) }
    ensures caret { OnTrue result (caret_of what.now ≤ count_of what.now) }
{
    match (face.kind(), what) {
        (FaceKind::Chars, FaceData::Chars { text, caret, .. }) => *caret <= text.count(),
        (FaceKind::Grid, FaceData::Grid(_)) => true,
        (FaceKind::Deeds, FaceData::Deeds(_)) => true,
        _ => false,
    }
}

/// The caret, or none where there is no text.
pub fn caret<F: Face>(face: &F, node: u32) -> Option<u32> {
    if !has_text(face, node) {
        return None;
    }
    Some(face.caret(node))
}

/// The text selections, or none where there is no text.
pub fn marks<F: Face>(face: &F, node: u32) -> Result<Option<Marks>, NoMemory> {
    if !has_text(face, node) {
        return Ok(None);
    }
    let marks = face.marks(node)?;
    Ok(Some(marks))
}

/// A part of a text, or none where there is no such part.
pub fn part<F: Face>(face: &F, node: u32, from: u32, to: u32) -> Result<Option<Text>, NoMemory> {
    if !has_part(face, node, from, to) {
        return Ok(None);
    }
    let text = face.part(node, from, to)?;
    Ok(Some(text))
}

/// Whether the node has actions.
fn has_actions<F: Face>(face: &F, node: u32) -> bool
    ensures { OnTrue result (At (F.nodes face.now) node (λ what. kind_of what ≡ FaceKind.Deeds)) }
{
    if !is_here(face, node) {
        return false;
    }
    match face.kind() {
        FaceKind::Chars => false,
        FaceKind::Grid => false,
        FaceKind::Deeds => true,
    }
}

/// Whether there is such a part.
fn has_part<F: Face>(face: &F, node: u32, from: u32, to: u32) -> bool
    ensures { OnTrue result (HasPart (F.nodes face.now) node from to) }
{
    let count = face.count(node);
    if has_text(face, node) {
        if from <= to {
            if to <= count {
                return true;
            }
        }
        return false;
    }
    if has_actions(face, node) {
        if from < count {
            return true;
        }
    }
    false
}
