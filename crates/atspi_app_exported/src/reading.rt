//! What a face keeps of one node, read out of it.

ghost use Rattle.std.specs.Prelude.{◌≡◌, Some, IfOk, IsSome};
ghost use Rattle.std.specs.FinMap as map;
ghost use Rattle.atspi_tree_model.specs.declared.contents.FaceData.TheVariants.{Deeds};
ghost use Rattle.atspi_faces.specs.face.Nodes.{HasText};
ghost use Rattle.atspi_app_exported.specs.Asking.{HasNames};

use atspi_base::{NoMemory, Texts};
use atspi_faces::face::{Face, FaceData, FaceKind};
use std::alloc::Global;

/// The text of a node, with its caret and its selections.
pub(crate) fn text_at<F: Face>(chars: &F, node: u32) -> Result<FaceData, NoMemory>
    requires { HasText (F.nodes chars.now) node }
    ensures { IfOk result (λ what. map.get (F.nodes chars.now) node ≡ Some what) }
{
    let count = chars.count(node);
    let caret = chars.caret(node);
    let text = chars.part(node, 0, count)?;
    let marks = chars.marks(node)?;
    Ok(FaceData::Chars { text, caret, marks })
}

/// The names of a node's actions.
#[tactic(auto, using(crate::proofs::ReadOut::name_part, crate::proofs::ReadOut::names_more, crate::proofs::ReadOut::names_whole))]
fn names_at<F: Face>(alloc: Global, deeds: &F, node: u32) -> Result<Texts, NoMemory>
    requires { HasNames (F.nodes deeds.now) node }
    ensures { IfOk result (λ names. map.get (F.nodes deeds.now) node ≡ Some (Deeds names)) }
{
    let mut names = Texts::new(alloc);
    for i in 0..deeds.count(node) {
        let name = deeds.part(node, i, i + 1)?;
        names.push(name)?;
    }
    Ok(names)
}

/// The actions of a node.
pub(crate) fn actions_at<F: Face>(alloc: Global, deeds: &F, node: u32) -> Result<FaceData, NoMemory>
    requires { HasNames (F.nodes deeds.now) node }
    ensures { IfOk result (λ what. map.get (F.nodes deeds.now) node ≡ Some what) }
{
    Ok(FaceData::Deeds(names_at(alloc, deeds, node)?))
}

/// The contents of a node, of the face's kind.
#[tactic(auto, using(crate::proofs::ReadOut::kind_here, crate::proofs::ReadOut::columns_here))]
pub(crate) fn contents_at<F: Face>(alloc: Global, face: &F, node: u32) -> Result<FaceData, NoMemory>
    requires { IsSome (map.get (F.nodes face.now) node) }
    ensures { IfOk result (λ what. map.get (F.nodes face.now) node ≡ Some what) }
{
    match face.kind() {
        FaceKind::Chars => text_at(face, node),
        FaceKind::Grid => Ok(FaceData::Grid(face.count(node))),
        FaceKind::Deeds => actions_at(alloc, face, node),
    }
}
