//! Faces exchanged: the contents of all nodes go into another box.

ghost use Rattle.std.specs.Prelude.{◌≡◌, None, OnOk, OnErr, IfOk, IfErr, IfSome, IsSome};
ghost use Rattle.std.specs.FinMap as map;
ghost use Rattle.atspi_faces.specs.face.Boxes.{box_number};
ghost use Rattle.atspi_app_exported.specs.Parts.{AreSmall, IsEmpty, kept_by, number_among, with_number};

use crate::exported::Exported;
use crate::exports::Exports;
use crate::reading::contents_at;
use atspi_base::NoMemory;
use atspi_faces::face::{Face, FaceKind};
use std::alloc::Global;

/// Copies the contents of a node into a face that does not know it.
#[tactic(auto, using(crate::proofs::Copied::right_kind, crate::proofs::Copied::right_caret, crate::proofs::Copied::put_if_some))]
fn copy_node<F: Face, G: Face>(
    alloc: Global,
    from: &F,
    to: &mut G,
    node: u32,
) -> Result<(), NoMemory>
    requires there { IsSome (map.get (F.nodes from.now) node) }
    requires fresh { map.get (G.nodes to.old) node ≡ None }
    requires kind { G.of_kind to.old ≡ F.of_kind from.now }
    ensures ok { OnOk result
        (IfSome (map.get (F.nodes from.now) node) (λ what. G.nodes to.new ≡ map.insert (G.nodes to.old) node what)) }
    ensures err { OnErr result (G.nodes to.new ≡ G.nodes to.old) }
    ensures kind { G.of_kind to.new ≡ G.of_kind to.old }
    ensures same_one { G.number to.new ≡ G.number to.old }
{
    let _ = from.kind();
    let data = contents_at(alloc, from, node)?;
    match to.put_node(node, data) {
        Ok(()) => Ok(()),
        Err(_) => Err(NoMemory),
    }
}

/// Copies each node into a face that knows none. After want of memory some may be copied.
fn copy_nodes<F: Face, G: Face>(alloc: Global, from: &F, to: &mut G) -> Result<(), NoMemory>
    requires small { AreSmall (F.nodes from.now) }
    requires kind { G.of_kind to.old ≡ F.of_kind from.now }
    requires empty { IsEmpty (G.nodes to.old) }
    ensures ok { OnOk result (G.nodes to.new ≡ F.nodes from.now) }
    ensures small { AreSmall (G.nodes to.new) }
    ensures kind { G.of_kind to.new ≡ G.of_kind to.old }
    ensures same_one { G.number to.new ≡ G.number to.old }
{
    let mut at = 0u32;
    loop {
        let Some(node) = from.next_node(at) else {
            return Ok(());
        };
        let Ok(()) = copy_node(alloc, from, to, node) else {
            return Err(NoMemory);
        };
        if node == u32::MAX {
            return Ok(());
        }
        at = node + 1;
    }
}

/// Closes each node.
fn clear<F: Face>(face: &mut F)
    requires { AreSmall (F.nodes face.old) }
    ensures empty { IsEmpty (F.nodes face.new) }
    ensures kind { F.of_kind face.new ≡ F.of_kind face.old }
    ensures same_one { F.number face.new ≡ F.number face.old }
{
    let mut at = 0u32;
    loop {
        let Some(node) = face.next_node(at) else {
            return;
        };
        face.drop_node(node);
        if node == u32::MAX {
            return;
        }
        at = node + 1;
    }
}

/// Puts the contents of a box into an empty one of its kind, which takes its place; the old box comes back as it was.
/// After want of memory the offered box comes back empty.
fn exchange(
    alloc: Global,
    face: &mut Box<dyn Face>,
    new: Box<dyn Face>,
) -> Result<Box<dyn Face>, (Box<dyn Face>, NoMemory)>
    requires small { AreSmall (nodes face.old) }
    requires kind { of_kind new ≡ of_kind face.old }
    requires empty { IsEmpty (nodes new) }
    ensures same { nodes face.new ≡ nodes face.old }
    ensures kind { of_kind face.new ≡ of_kind face.old }
    ensures old { IfOk result (λ old. nodes old ≡ nodes face.old) }
    ensures old_kind { IfOk result (λ old. of_kind old ≡ of_kind new) }
    ensures back { IfErr result (λ back. IsEmpty (nodes back.0)) }
    ensures back_kind { IfErr result (λ back. of_kind back.0 ≡ of_kind new) }
    ensures new_box { OnOk result (box_number face.new ≡ box_number new) }
    ensures old_box { IfOk result (λ old. box_number old ≡ box_number face.old) }
    ensures same_box { OnErr result (box_number face.new ≡ box_number face.old) }
    ensures back_box { IfErr result (λ back. box_number back.0 ≡ box_number new) }
{
    let mut new = new;
    if let Err(none) = copy_nodes(alloc, &*face, &mut new) {
        clear(&mut new);
        return Err((new, none));
    }
    Ok(std::mem::replace(face, new))
}

impl Exported {
    /// Puts the contents of one kind into an empty box of that kind, which is then one of the kit; the old box comes
    /// back as it was. After want of memory the offered box comes back empty, and nothing changed. Costs the nodes with
    /// contents of that kind.
    pub fn swap_face(
        &mut self,
        new: Box<dyn Face>,
    ) -> Result<Box<dyn Face>, (Box<dyn Face>, NoMemory)>
        requires exported { ⟦<Exported as Exports>⟧.is_exported self.old }
        requires empty { IsEmpty (nodes new) }
        ensures same { ⟦<Exported as Exports>⟧.parts self.new ≡ ⟦<Exported as Exports>⟧.parts self.old }
        ensures kinds { ⟦<Exported as Exports>⟧.kinds self.new ≡ ⟦<Exported as Exports>⟧.kinds self.old }
        ensures old { IfOk result
            (λ old. nodes old ≡ kept_by (of_kind new) (⟦<Exported as Exports>⟧.parts self.old).faces) }
        ensures old_kind { IfOk result (λ old. of_kind old ≡ of_kind new) }
        ensures back { IfErr result (λ back. IsEmpty (nodes back.0)) }
        ensures back_kind { IfErr result (λ back. of_kind back.0 ≡ of_kind new) }
        ensures new_box { OnOk result
            (⟦<Exported as Exports>⟧.numbers self.new
            ≡ with_number (of_kind new) (box_number new) (⟦<Exported as Exports>⟧.numbers self.old)) }
        ensures old_box { IfOk result
            (λ old. box_number old ≡ number_among (of_kind new) (⟦<Exported as Exports>⟧.numbers self.old)) }
        ensures same_boxes { OnErr result
            (⟦<Exported as Exports>⟧.numbers self.new ≡ ⟦<Exported as Exports>⟧.numbers self.old) }
        ensures back_box { IfErr result (λ back. box_number back.0 ≡ box_number new) }
    {
        match new.kind() {
            FaceKind::Chars => exchange(self.alloc, &mut self.kit.chars, new),
            FaceKind::Grid => exchange(self.alloc, &mut self.kit.grid, new),
            FaceKind::Deeds => exchange(self.alloc, &mut self.kit.deeds, new),
        }
    }
}
