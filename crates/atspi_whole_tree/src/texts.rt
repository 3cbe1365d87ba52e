//! Steps of a text, done to the face that keeps it.

ghost use Rattle.std.specs.Prelude.{◌≡◌, length, OnOk, OnErr};
ghost use Rattle.atspi_faces.specs.declared.face.change.Change.TheVariants as changes;
ghost use Rattle.atspi_faces.specs.face.Nodes.{CanChange, changed_at};
ghost use Rattle.atspi_app_exported.specs.Doing.{CanDo, IsOfText, TakesMemory, text_after};

use atspi_base::{Marks, NoMemory, Text};
use atspi_faces::face::{Change, Face};
use atspi_tree_model::Step;
use std::alloc::Global;

/// A text is put in.
fn insert<F: Face>(
    alloc: Global,
    chars: &mut F,
    node: u32,
    at: u32,
    text: &Text,
) -> Result<(), NoMemory>
    requires { CanChange (F.nodes chars.old) node (changes.Insert at text.now) }
    ensures ok { OnOk result (F.nodes chars.new ≡ changed_at (F.nodes chars.old) node (changes.Insert at text.now)) }
    ensures err { OnErr result (F.nodes chars.new ≡ F.nodes chars.old) }
    ensures kind { F.of_kind chars.new ≡ F.of_kind chars.old }
{
    let text = text.copy(alloc)?;
    chars.change(node, &Change::Insert { at, text })
}

/// A text is taken out. Takes no memory.
fn delete<F: Face>(chars: &mut F, node: u32, at: u32, text: &Text)
    requires { CanChange (F.nodes chars.old) node (changes.Delete at (length text.now)) }
    ensures ok { F.nodes chars.new ≡ changed_at (F.nodes chars.old) node (changes.Delete at (length text.now)) }
    ensures kind { F.of_kind chars.new ≡ F.of_kind chars.old }
{
    let len = text.count();
    match chars.change(node, &Change::Delete { at, len }) {
        Ok(()) => {}
        Err(_) => unreachable!(),
    }
}

/// The caret goes to another place. Takes no memory.
fn set_caret<F: Face>(chars: &mut F, node: u32, at: u32)
    requires { CanChange (F.nodes chars.old) node (changes.Caret at) }
    ensures ok { F.nodes chars.new ≡ changed_at (F.nodes chars.old) node (changes.Caret at) }
    ensures kind { F.of_kind chars.new ≡ F.of_kind chars.old }
{
    match chars.change(node, &Change::Caret(at)) {
        Ok(()) => {}
        Err(_) => unreachable!(),
    }
}

/// These are the text selections.
fn select<F: Face>(alloc: Global, chars: &mut F, node: u32, marks: &Marks) -> Result<(), NoMemory>
    requires { CanChange (F.nodes chars.old) node (changes.Marks marks.now) }
    ensures ok { OnOk result (F.nodes chars.new ≡ changed_at (F.nodes chars.old) node (changes.Marks marks.now)) }
    ensures err { OnErr result (F.nodes chars.new ≡ F.nodes chars.old) }
    ensures kind { F.of_kind chars.new ≡ F.of_kind chars.old }
{
    let marks = marks.copy(alloc)?;
    chars.change(node, &Change::Marks(marks))
}

/// Does a step of a text. After want of memory the face is as before.
pub(crate) fn change_text<F: Face>(
    alloc: Global,
    chars: &mut F,
    step: &Step,
) -> Result<(), NoMemory>
    requires of_text { IsOfText step.now }
    requires can { CanDo (F.nodes chars.old) step.now }
    ensures ok { OnOk result (F.nodes chars.new ≡ text_after (F.nodes chars.old) step.now) }
    ensures err { OnErr result (F.nodes chars.new ≡ F.nodes chars.old) }
    ensures cause { OnErr result (TakesMemory step.now) }
    ensures kind { F.of_kind chars.new ≡ F.of_kind chars.old }
{
    match step {
        Step::Insert { node, at, text } => insert(alloc, chars, *node, *at, text),
        Step::Delete { node, at, text } => {
            delete(chars, *node, *at, text);
            Ok(())
        }
        Step::Caret { node, at } => {
            set_caret(chars, *node, *at);
            Ok(())
        }
        Step::TextSelect { node, marks } => select(alloc, chars, *node, marks),
        _ => unreachable!(),
    }
}
