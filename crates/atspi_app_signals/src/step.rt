//! The announcement of a step, and its echoes.

ghost use Rattle.std.specs.Prelude.{◌≡◌, IfOk, OnOk, ◌++◌};
ghost use Rattle.atspi_tree_model.specs.Forest.{Forest};
ghost use Rattle.atspi_tree_model.specs.Row.{TreeRow};
ghost use Rattle.atspi_tree_model.specs.Tree.{shape_of};
ghost use Rattle.atspi_protocol.specs.announcing.Announced as announcements;
ghost use Rattle.atspi_app_signals.specs.Asked.{CanBeTold, messages_asked, without_contents};

use crate::changes::{caret, deleted, description, inserted, name, role, state};
use crate::places::{added, moved, removed};
use atspi_app_known::heard::Heard;
use atspi_base::{NoMemory, Text};
use atspi_protocol::ends::Mail;
use atspi_tree::Tree;
use atspi_tree_model::Step;
use std::alloc::Global;

/// The signals of a step that some pattern covers, behind others.
fn put(
    alloc: Global,
    heard: &Heard,
    bus: &Text,
    tree: &Tree,
    step: &Step,
    mail: &mut Mail,
) -> Result<(), NoMemory>
    requires { CanBeTold tree.now step.now }
    ensures { OnOk result
        (mail.new
        ≡ mail.old
        ++ messages_asked heard.now (announcements.announced bus.now (without_contents tree.now) step.now)) }
{
    tree.is_lawful();
    match step {
        Step::Add {
            node,
            parent,
            index,
            seed,
        } => added(alloc, heard, bus, *node, *parent, *index, seed, mail),
        Step::Remove { node } => removed(alloc, heard, bus, tree, *node, mail),
        Step::Move {
            node,
            parent,
            index,
        } => moved(alloc, heard, bus, tree, *node, *parent, *index, mail),
        Step::SetName { node, text } => name(alloc, heard, *node, text, mail),
        Step::SetDescription { node, text } => description(alloc, heard, *node, text, mail),
        Step::SetRole { node, role: to } => role(alloc, heard, *node, *to, mail),
        Step::SetState {
            node,
            state: bit,
            on,
        } => state(alloc, heard, *node, *bit, *on, mail),
        Step::Insert { node, at, text } => inserted(alloc, heard, *node, *at, text, mail),
        Step::Delete { node, at, text } => deleted(alloc, heard, *node, *at, text, mail),
        Step::Caret { node, at } => caret(alloc, heard, *node, *at, mail),
        Step::TextSelect { .. } => Ok(()),
        Step::Relate { .. } => Ok(()),
    }
}

/// The signals that an application with this bus name sends of a step, told from the tree before it: its announcement
/// and then its echoes, as AT-SPI2's interface files Cache and Event.Object have them, those that some listener's
/// pattern covers. For a signal that nobody hears nothing is made. A step that applies to the tree can be told; one
/// that takes no node from its place can be told before the steps that it follows (`laws`).
pub fn announced(
    alloc: Global,
    heard: &Heard,
    bus: &Text,
    tree: &Tree,
    step: &Step,
) -> Result<Mail, NoMemory>
    requires { CanBeTold tree.now step.now }
    ensures { IfOk result
        (λ mail. (f : Forest TreeRow) → shape_of f ≡ tree.now.rows
        → mail ≡ messages_asked heard.now (announcements.announced bus.now f step.now)) }
{
    tree.is_lawful();
    let mut mail = Mail::new(alloc);
    put(alloc, heard, bus, tree, step, &mut mail)?;
    Ok(mail)
}
