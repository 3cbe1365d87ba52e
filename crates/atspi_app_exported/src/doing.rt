//! Steps done to the shape and to the faces. After want of memory all is as before.

ghost use Rattle.std.specs.Prelude.{◌≡◌, OnOk, OnErr};
ghost use Rattle.atspi_tree_model.specs.RowRules.{rows};
ghost use Rattle.atspi_tree_model.specs.Tree.{AllApply, Applies, added_after, after, after_all};
ghost use Rattle.atspi_tree_model.specs.declared.step.Step.TheVariants.{Remove};
ghost use Rattle.atspi_app_exported.specs.Parts.{whole_of};
ghost use Rattle.atspi_app_exported.specs.Doing.{AreOne, IsAdd, IsOfShape, IsOfText, TakesMemory, added_all};
ghost use Rattle.atspi_app_exported.specs.Doing.{after_parts};

use crate::closing::{close, close_subtree};
use crate::exported::Exported;
use crate::exports::Exports;
use crate::opening::open;
use crate::texts::change_text;
use atspi_base::NoMemory;
use atspi_faces::face::Face;
use atspi_tree_model::{Seed, Step, StepList};

impl Exported {
    /// A new node.
    fn add(&mut self, step: &Step, node: u32, seed: &Seed) -> Result<(), NoMemory>
        requires exported { ⟦<Exported as Exports>⟧.is_exported self.old }
        requires applies { Applies rows (whole_of (⟦<Exported as Exports>⟧.parts self.old))
            (⟦<Exported as Exports>⟧.parts self.old).tree.added step.now }
        requires is { IsAdd step.now node seed.now }
        ensures ok { OnOk result
            (⟦<Exported as Exports>⟧.parts self.new ≡ after_parts (⟦<Exported as Exports>⟧.parts self.old) step.now) }
        ensures err { OnErr result (⟦<Exported as Exports>⟧.parts self.new ≡ ⟦<Exported as Exports>⟧.parts self.old) }
        ensures kinds { ⟦<Exported as Exports>⟧.kinds self.new ≡ ⟦<Exported as Exports>⟧.kinds self.old }
    {
        let kit = &mut self.kit;
        open(
            self.alloc,
            &mut kit.chars,
            &mut kit.grid,
            &mut kit.deeds,
            node,
            seed,
        )?;
        match self.tree.apply(step) {
            Ok(()) => Ok(()),
            Err(none) => {
                let kit = &mut self.kit;
                close(&mut kit.chars, &mut kit.grid, &mut kit.deeds, node);
                Err(none)
            }
        }
    }

    /// A node goes, with all that is below it. Takes no memory.
    fn remove(&mut self, node: u32)
        requires exported { ⟦<Exported as Exports>⟧.is_exported self.old }
        requires applies { Applies rows (whole_of (⟦<Exported as Exports>⟧.parts self.old))
            (⟦<Exported as Exports>⟧.parts self.old).tree.added (Remove node) }
        ensures ok { ⟦<Exported as Exports>⟧.parts self.new
            ≡ after_parts (⟦<Exported as Exports>⟧.parts self.old) (Remove node) }
        ensures kinds { ⟦<Exported as Exports>⟧.kinds self.new ≡ ⟦<Exported as Exports>⟧.kinds self.old }
    {
        let kit = &mut self.kit;
        close_subtree(
            &self.tree,
            node,
            &mut kit.chars,
            &mut kit.grid,
            &mut kit.deeds,
        );
        self.tree.take_out(node);
    }

    /// A step of a text.
    fn change(&mut self, step: &Step) -> Result<(), NoMemory>
        requires of_text { IsOfText step.now }
        requires exported { ⟦<Exported as Exports>⟧.is_exported self.old }
        requires applies { Applies rows (whole_of (⟦<Exported as Exports>⟧.parts self.old))
            (⟦<Exported as Exports>⟧.parts self.old).tree.added step.now }
        ensures ok { OnOk result
            (⟦<Exported as Exports>⟧.parts self.new ≡ after_parts (⟦<Exported as Exports>⟧.parts self.old) step.now) }
        ensures err { OnErr result (⟦<Exported as Exports>⟧.parts self.new ≡ ⟦<Exported as Exports>⟧.parts self.old) }
        ensures cause { OnErr result (TakesMemory step.now) }
        ensures kinds { ⟦<Exported as Exports>⟧.kinds self.new ≡ ⟦<Exported as Exports>⟧.kinds self.old }
    {
        change_text(self.alloc, &mut self.kit.chars, step)
    }

    /// A step of the shape alone.
    fn reshape(&mut self, step: &Step) -> Result<(), NoMemory>
        requires of_shape { IsOfShape step.now }
        requires exported { ⟦<Exported as Exports>⟧.is_exported self.old }
        requires applies { Applies rows (whole_of (⟦<Exported as Exports>⟧.parts self.old))
            (⟦<Exported as Exports>⟧.parts self.old).tree.added step.now }
        ensures ok { OnOk result
            (⟦<Exported as Exports>⟧.parts self.new ≡ after_parts (⟦<Exported as Exports>⟧.parts self.old) step.now) }
        ensures err { OnErr result (⟦<Exported as Exports>⟧.parts self.new ≡ ⟦<Exported as Exports>⟧.parts self.old) }
        ensures cause { OnErr result (TakesMemory step.now) }
        ensures kinds { ⟦<Exported as Exports>⟧.kinds self.new ≡ ⟦<Exported as Exports>⟧.kinds self.old }
    {
        match step {
            Step::SetState { node, state, on } => {
                self.tree.set_state(*node, *state, *on);
                Ok(())
            }
            _ => self.tree.apply(step),
        }
    }

    /// The same by the kind of the step.
    fn do_step(&mut self, step: &Step) -> Result<(), NoMemory>
        requires exported { ⟦<Exported as Exports>⟧.is_exported self.old }
        requires applies { Applies rows (whole_of (⟦<Exported as Exports>⟧.parts self.old))
            (⟦<Exported as Exports>⟧.parts self.old).tree.added step.now }
        ensures ok { OnOk result
            (⟦<Exported as Exports>⟧.parts self.new ≡ after_parts (⟦<Exported as Exports>⟧.parts self.old) step.now) }
        ensures err { OnErr result (⟦<Exported as Exports>⟧.parts self.new ≡ ⟦<Exported as Exports>⟧.parts self.old) }
        ensures cause { OnErr result (TakesMemory step.now) }
        ensures kinds { ⟦<Exported as Exports>⟧.kinds self.new ≡ ⟦<Exported as Exports>⟧.kinds self.old }
    {
        match step {
            Step::Add { node, seed, .. } => self.add(step, *node, seed),
            Step::Remove { node } => {
                self.remove(*node);
                Ok(())
            }
            Step::Insert { .. } => self.change(step),
            Step::Delete { .. } => self.change(step),
            Step::Caret { .. } => self.change(step),
            Step::TextSelect { .. } => self.change(step),
            Step::Move { .. } => self.reshape(step),
            Step::SetName { .. } => self.reshape(step),
            Step::SetDescription { .. } => self.reshape(step),
            Step::SetRole { .. } => self.reshape(step),
            Step::SetState { .. } => self.reshape(step),
            Step::Relate { .. } => self.reshape(step),
        }
    }

    /// Does a step that applies. After want of memory all is as before; a removal, a state, a deletion and a caret want
    /// none. A removal costs the nodes that go.
    pub fn apply(&mut self, step: &Step) -> Result<(), NoMemory>
        requires exported { ⟦<Exported as Exports>⟧.is_exported self.old }
        requires applies { Applies rows (whole_of (⟦<Exported as Exports>⟧.parts self.old))
            (⟦<Exported as Exports>⟧.parts self.old).tree.added step.now }
        ensures exported { ⟦<Exported as Exports>⟧.is_exported self.new }
        ensures ok { OnOk result
            (whole_of (⟦<Exported as Exports>⟧.parts self.new)
            ≡ after rows (whole_of (⟦<Exported as Exports>⟧.parts self.old)) step.now) }
        ensures added { OnOk result
            ((⟦<Exported as Exports>⟧.parts self.new).tree.added
            ≡ added_after (⟦<Exported as Exports>⟧.parts self.old).tree.added step.now) }
        ensures err { OnErr result (⟦<Exported as Exports>⟧.parts self.new ≡ ⟦<Exported as Exports>⟧.parts self.old) }
        ensures cause { OnErr result (TakesMemory step.now) }
    {
        self.do_step(step)
    }

    /// Does the steps of one cause, one after another. After want of memory all is as before.
    pub fn apply_all(&mut self, steps: &StepList) -> Result<(), NoMemory>
        requires one { AreOne steps.now }
        requires exported { ⟦<Exported as Exports>⟧.is_exported self.old }
        requires apply { AllApply rows (whole_of (⟦<Exported as Exports>⟧.parts self.old))
            (⟦<Exported as Exports>⟧.parts self.old).tree.added steps.now }
        ensures exported { ⟦<Exported as Exports>⟧.is_exported self.new }
        ensures ok { OnOk result
            (whole_of (⟦<Exported as Exports>⟧.parts self.new)
            ≡ after_all rows (whole_of (⟦<Exported as Exports>⟧.parts self.old)) steps.now) }
        ensures added { OnOk result
            ((⟦<Exported as Exports>⟧.parts self.new).tree.added
            ≡ added_all (⟦<Exported as Exports>⟧.parts self.old).tree.added steps.now) }
        ensures err { OnErr result (⟦<Exported as Exports>⟧.parts self.new ≡ ⟦<Exported as Exports>⟧.parts self.old) }
    {
        let list = steps.as_slice();
        for step in list {
            self.apply(step)?;
        }
        Ok(())
    }
}
