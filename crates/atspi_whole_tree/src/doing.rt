//! Steps done to the shape and to the contents. After want of memory all is as before.

ghost use Rattle.std.specs.Prelude.{◌≡◌, OnErr, OnOk};
ghost use Rattle.atspi_tree_model.specs.declared.step.Step.TheVariants.{Remove};
ghost use Rattle.atspi_app_exported.specs.Doing.{IsAdd, IsOfShape, IsOfText, after_parts};
ghost use Rattle.atspi_whole_tree.specs.inner.Tables.{CanDoStep, parts_of};

use crate::closing::{close, close_subtree};
use crate::held::Held;
use crate::opening::open;
use crate::texts::change_text;
use atspi_base::NoMemory;
use atspi_tree_model::{Seed, Step};
use std::alloc::Global;

/// A new node.
fn add(alloc: Global, held: &mut Held, step: &Step, node: u32, seed: &Seed) -> Result<(), NoMemory>
    requires can { CanDoStep (parts_of held.old) step.now }
    requires is { IsAdd step.now node seed.now }
    ensures ok { OnOk result (parts_of held.new ≡ after_parts (parts_of held.old) step.now) }
    ensures err { OnErr result (parts_of held.new ≡ parts_of held.old) }
{
    open(
        alloc,
        &mut held.chars,
        &mut held.grid,
        &mut held.deeds,
        node,
        seed,
    )?;
    match held.tree.apply(step) {
        Ok(()) => Ok(()),
        Err(none) => {
            close(&mut held.chars, &mut held.grid, &mut held.deeds, node);
            Err(none)
        }
    }
}

/// A node goes, with all that is below it.
pub(crate) fn remove(held: &mut Held, node: u32)
    requires can { CanDoStep (parts_of held.old) (Remove node) }
    ensures ok { parts_of held.new ≡ after_parts (parts_of held.old) (Remove node) }
{
    close_subtree(
        &held.tree,
        node,
        &mut held.chars,
        &mut held.grid,
        &mut held.deeds,
    );
    held.tree.take_out(node);
}

/// A step of a text.
fn change(alloc: Global, held: &mut Held, step: &Step) -> Result<(), NoMemory>
    requires of_text { IsOfText step.now }
    requires can { CanDoStep (parts_of held.old) step.now }
    ensures ok { OnOk result (parts_of held.new ≡ after_parts (parts_of held.old) step.now) }
    ensures err { OnErr result (parts_of held.new ≡ parts_of held.old) }
{
    change_text(alloc, &mut held.chars, step)
}

/// A step of the shape alone.
fn reshape(held: &mut Held, step: &Step) -> Result<(), NoMemory>
    requires of_shape { IsOfShape step.now }
    requires can { CanDoStep (parts_of held.old) step.now }
    ensures ok { OnOk result (parts_of held.new ≡ after_parts (parts_of held.old) step.now) }
    ensures err { OnErr result (parts_of held.new ≡ parts_of held.old) }
{
    held.tree.apply(step)
}

/// Does a step that applies.
pub(crate) fn do_step(alloc: Global, held: &mut Held, step: &Step) -> Result<(), NoMemory>
    requires can { CanDoStep (parts_of held.old) step.now }
    ensures ok { OnOk result (parts_of held.new ≡ after_parts (parts_of held.old) step.now) }
    ensures err { OnErr result (parts_of held.new ≡ parts_of held.old) }
{
    match step {
        Step::Add { node, seed, .. } => add(alloc, held, step, *node, seed),
        Step::Remove { node } => {
            remove(held, *node);
            Ok(())
        }
        Step::Insert { .. } => change(alloc, held, step),
        Step::Delete { .. } => change(alloc, held, step),
        Step::Caret { .. } => change(alloc, held, step),
        Step::TextSelect { .. } => change(alloc, held, step),
        Step::Move { .. } => reshape(held, step),
        Step::SetName { .. } => reshape(held, step),
        Step::SetDescription { .. } => reshape(held, step),
        Step::SetRole { .. } => reshape(held, step),
        Step::SetState { .. } => reshape(held, step),
        Step::Relate { .. } => reshape(held, step),
    }
}
