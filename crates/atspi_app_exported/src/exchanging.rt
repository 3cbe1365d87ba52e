//! The steps of a call, done as a whole.

ghost use Rattle.std.specs.Prelude.{◌≡◌, ◌∷◌, [], OnOk, OnErr};
ghost use Rattle.atspi_tree_model.specs.RowRules.{rows};
ghost use Rattle.atspi_tree_model.specs.Tree.{AllApply, after_all};
ghost use Rattle.atspi_tree_model.specs.declared.step.Step.TheVariants.{Caret, Delete, Insert};
ghost use Rattle.atspi_app_exported.specs.Parts.{whole_of};
ghost use Rattle.atspi_app_exported.specs.Doing.{CanBeDone, added_all};

use crate::exported::Exported;
use crate::exports::Exports;
use crate::texts::{exchange, exchange_behind};
use atspi_base::{NoMemory, Text};
use atspi_faces::face::Face;
use atspi_tree_model::{Step, StepList};

impl Exported {
    /// A text goes into the place of another: the steps are a deletion and an insertion, which are of one node and at
    /// one place.
    fn exchange(
        &mut self,
        steps: &StepList,
        node: u32,
        at: u32,
        gone: &Text,
        into: u32,
        to: u32,
        text: &Text,
    ) -> Result<(), NoMemory>
        requires are { steps.now ≡ Delete node at gone.now ∷ Insert into to text.now ∷ [] }
        requires done { CanBeDone steps.now }
        requires exported { ⟦<Exported as Exports>⟧.is_exported self.old }
        requires apply { AllApply rows (whole_of (⟦<Exported as Exports>⟧.parts self.old))
            (⟦<Exported as Exports>⟧.parts self.old).tree.added steps.now }
        ensures exported { ⟦<Exported as Exports>⟧.is_exported self.new }
        ensures ok { OnOk result
            (whole_of (⟦<Exported as Exports>⟧.parts self.new)
            ≡ after_all rows (whole_of (⟦<Exported as Exports>⟧.parts self.old)) steps.now) }
        ensures added { OnOk result
            ((⟦<Exported as Exports>⟧.parts self.new).tree.added
            ≡ added_all (⟦<Exported as Exports>⟧.parts self.old).tree.added steps.now) }
        ensures err { OnErr result (⟦<Exported as Exports>⟧.parts self.new ≡ ⟦<Exported as Exports>⟧.parts self.old) }
    {
        let _ = steps;
        let _ = into;
        let _ = to;
        exchange(self.alloc, &mut self.kit.chars, node, at, gone, text)
    }

    /// The same behind a caret, which is of that node too.
    fn exchange_behind(
        &mut self,
        steps: &StepList,
        of: u32,
        caret: u32,
        node: u32,
        at: u32,
        gone: &Text,
        into: u32,
        to: u32,
        text: &Text,
    ) -> Result<(), NoMemory>
        requires are { steps.now ≡ Caret of caret ∷ Delete node at gone.now ∷ Insert into to text.now ∷ [] }
        requires done { CanBeDone steps.now }
        requires exported { ⟦<Exported as Exports>⟧.is_exported self.old }
        requires apply { AllApply rows (whole_of (⟦<Exported as Exports>⟧.parts self.old))
            (⟦<Exported as Exports>⟧.parts self.old).tree.added steps.now }
        ensures exported { ⟦<Exported as Exports>⟧.is_exported self.new }
        ensures ok { OnOk result
            (whole_of (⟦<Exported as Exports>⟧.parts self.new)
            ≡ after_all rows (whole_of (⟦<Exported as Exports>⟧.parts self.old)) steps.now) }
        ensures added { OnOk result
            ((⟦<Exported as Exports>⟧.parts self.new).tree.added
            ≡ added_all (⟦<Exported as Exports>⟧.parts self.old).tree.added steps.now) }
        ensures err { OnErr result (⟦<Exported as Exports>⟧.parts self.new ≡ ⟦<Exported as Exports>⟧.parts self.old) }
    {
        let _ = steps;
        let _ = of;
        let _ = into;
        let _ = to;
        exchange_behind(self.alloc, &mut self.kit.chars, node, caret, at, gone, text)
    }

    /// Does the steps of a call, one after another. Where a text goes into the place of another, that is put in before
    /// the other is taken out, since only the first change may want memory. After want of memory all is as before.
    pub fn apply_call(&mut self, steps: &StepList) -> Result<(), NoMemory>
        requires done { CanBeDone steps.now }
        requires exported { ⟦<Exported as Exports>⟧.is_exported self.old }
        requires apply { AllApply rows (whole_of (⟦<Exported as Exports>⟧.parts self.old))
            (⟦<Exported as Exports>⟧.parts self.old).tree.added steps.now }
        ensures exported { ⟦<Exported as Exports>⟧.is_exported self.new }
        ensures ok { OnOk result
            (whole_of (⟦<Exported as Exports>⟧.parts self.new)
            ≡ after_all rows (whole_of (⟦<Exported as Exports>⟧.parts self.old)) steps.now) }
        ensures added { OnOk result
            ((⟦<Exported as Exports>⟧.parts self.new).tree.added
            ≡ added_all (⟦<Exported as Exports>⟧.parts self.old).tree.added steps.now) }
        ensures err { OnErr result (⟦<Exported as Exports>⟧.parts self.new ≡ ⟦<Exported as Exports>⟧.parts self.old) }
    {
        match steps.as_slice() {
            [
                Step::Delete {
                    node,
                    at,
                    text: gone,
                },
                Step::Insert {
                    node: into,
                    at: to,
                    text,
                },
            ] => self.exchange(steps, *node, *at, gone, *into, *to, text),
            [
                Step::Caret {
                    node: of,
                    at: caret,
                },
                Step::Delete {
                    node,
                    at,
                    text: gone,
                },
                Step::Insert {
                    node: into,
                    at: to,
                    text,
                },
            ] => self.exchange_behind(steps, *of, *caret, *node, *at, gone, *into, *to, text),
            _ => self.apply_all(steps),
        }
    }
}
