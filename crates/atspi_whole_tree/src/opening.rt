//! The contents of a new node come into the faces, into all of them or into none.

ghost use Rattle.std.specs.Prelude.{◌≡◌, ◌≤◌, None, OnOk, OnErr};
ghost use Rattle.std.specs.FinMap as map;
ghost use Rattle.atspi_tree_model.specs.declared.contents.FaceKind.{FaceKind};
ghost use Rattle.atspi_faces.specs.face.Contents.{caret_of, count_of, kind_of};
ghost use Rattle.atspi_protocol.specs.whole.Whole.{with_actions, with_columns, with_text};
ghost use Rattle.atspi_app_exported.specs.Parts.{AreKinds, faces_of, kinds_of};

use atspi_base::{Marks, NoMemory, Text, Texts};
use atspi_faces::face::{Face, FaceData};
use atspi_tree_model::Seed;
use std::alloc::Global;

/// Opens a node. After want of memory the face is as before.
fn put<F: Face>(face: &mut F, node: u32, what: FaceData) -> Result<(), NoMemory>
    requires fresh { map.get (F.nodes face.old) node ≡ None }
    requires right_kind { kind_of what ≡ F.of_kind face.old }
    requires caret_inside { caret_of what ≤ count_of what }
    ensures ok { OnOk result (F.nodes face.new ≡ map.insert (F.nodes face.old) node what) }
    ensures err { OnErr result (F.nodes face.new ≡ F.nodes face.old) }
    ensures kind { F.of_kind face.new ≡ F.of_kind face.old }
{
    match face.put_node(node, what) {
        Ok(()) => Ok(()),
        Err(_) => Err(NoMemory),
    }
}

/// A new node's text, where it has one.
fn open_text<F: Face>(
    alloc: Global,
    chars: &mut F,
    node: u32,
    text: &Option<Text>,
) -> Result<(), NoMemory>
    requires fresh { map.get (F.nodes chars.old) node ≡ None }
    requires kind { F.of_kind chars.old ≡ FaceKind.Chars }
    ensures ok { OnOk result (F.nodes chars.new ≡ with_text node text.now (F.nodes chars.old)) }
    ensures err { OnErr result (F.nodes chars.new ≡ F.nodes chars.old) }
    ensures kind { F.of_kind chars.new ≡ F.of_kind chars.old }
{
    let Some(text) = text else {
        return Ok(());
    };
    let text = text.copy(alloc)?;
    let marks = Marks::new(alloc);
    put(
        chars,
        node,
        FaceData::Chars {
            text,
            caret: 0,
            marks,
        },
    )
}

/// A new node's columns, where it has some.
fn open_columns<F: Face>(grid: &mut F, node: u32, columns: Option<u32>) -> Result<(), NoMemory>
    requires fresh { map.get (F.nodes grid.old) node ≡ None }
    requires kind { F.of_kind grid.old ≡ FaceKind.Grid }
    ensures ok { OnOk result (F.nodes grid.new ≡ with_columns node columns (F.nodes grid.old)) }
    ensures err { OnErr result (F.nodes grid.new ≡ F.nodes grid.old) }
    ensures kind { F.of_kind grid.new ≡ F.of_kind grid.old }
{
    match columns {
        None => Ok(()),
        Some(columns) => put(grid, node, FaceData::Grid(columns)),
    }
}

/// A new node's actions, where it has some.
fn open_actions<F: Face>(
    alloc: Global,
    deeds: &mut F,
    node: u32,
    names: &Texts,
) -> Result<(), NoMemory>
    requires fresh { map.get (F.nodes deeds.old) node ≡ None }
    requires kind { F.of_kind deeds.old ≡ FaceKind.Deeds }
    ensures ok { OnOk result (F.nodes deeds.new ≡ with_actions node names.now (F.nodes deeds.old)) }
    ensures err { OnErr result (F.nodes deeds.new ≡ F.nodes deeds.old) }
    ensures kind { F.of_kind deeds.new ≡ F.of_kind deeds.old }
{
    if names.len() == 0 {
        return Ok(());
    }
    let names = names.copy(alloc)?;
    put(deeds, node, FaceData::Deeds(names))
}

/// Opens a new node in the faces that it has contents for. After want of memory all are as before.
pub(crate) fn open<F: Face, G: Face, H: Face>(
    alloc: Global,
    chars: &mut F,
    grid: &mut G,
    deeds: &mut H,
    node: u32,
    seed: &Seed,
) -> Result<(), NoMemory>
    requires no_text { map.get (F.nodes chars.old) node ≡ None }
    requires no_columns { map.get (G.nodes grid.old) node ≡ None }
    requires no_actions { map.get (H.nodes deeds.old) node ≡ None }
    requires kinds { AreKinds (kinds_of (F.of_kind chars.old) (G.of_kind grid.old) (H.of_kind deeds.old)) }
    ensures text { OnOk result (F.nodes chars.new ≡ with_text node seed.now.text (F.nodes chars.old)) }
    ensures columns { OnOk result (G.nodes grid.new ≡ with_columns node seed.now.columns (G.nodes grid.old)) }
    ensures actions { OnOk result (H.nodes deeds.new ≡ with_actions node seed.now.actions (H.nodes deeds.old)) }
    ensures err { OnErr result
        (faces_of (F.nodes chars.new) (G.nodes grid.new) (H.nodes deeds.new)
        ≡ faces_of (F.nodes chars.old) (G.nodes grid.old) (H.nodes deeds.old)) }
    ensures kinds { kinds_of (F.of_kind chars.new) (G.of_kind grid.new) (H.of_kind deeds.new)
        ≡ kinds_of (F.of_kind chars.old) (G.of_kind grid.old) (H.of_kind deeds.old) }
{
    open_text(alloc, chars, node, &seed.text)?;
    let Ok(()) = open_columns(grid, node, seed.columns) else {
        chars.drop_node(node);
        return Err(NoMemory);
    };
    let Ok(()) = open_actions(alloc, deeds, node, &seed.actions) else {
        chars.drop_node(node);
        grid.drop_node(node);
        return Err(NoMemory);
    };
    Ok(())
}
