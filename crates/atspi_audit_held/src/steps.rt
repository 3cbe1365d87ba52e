//! Steps done to a tree and to what is noted beside it.

ghost use Rattle.std.specs.Prelude.{◌≡◌, ℕ, cond, false, OnErr, OnOk};
ghost use Rattle.std.specs.Ordering.{nat_cmp};
ghost use Rattle.std.specs.BTreeMap.{is_at};
ghost use Rattle.std.specs.BTreeSet.{contains};
ghost use Rattle.atspi_tree_model.specs.declared.step.Step.TheVariants.{Remove};
ghost use Rattle.atspi_tree_model.specs.RowRules.{first_kinds};
ghost use Rattle.atspi_tree_model.specs.Tree.{shape_of};
ghost use Rattle.atspi_app_exported.specs.Doing.{IsAdd};
ghost use Rattle.atspi_whole_tree.specs.Whole.{StepCanBe, tree_after};
ghost use Rattle.atspi_audit_held.specs.inner.Lacking.{AreMarks, IsOther};

use crate::known::is_lacking;
use crate::lacking::{forget, known_of, note_if};
use crate::marks::Marks;
use atspi_base::NoMemory;
use atspi_tree_model::{Kinds, Seed, Step};
use atspi_whole_tree::WholeTree;
use std::collections::BTreeSet;

/// The interfaces of a new node.
fn kinds_of_seed(seed: &Seed) -> Kinds
    ensures { result ≡ first_kinds seed.now }
{
    Kinds {
        text: seed.text.is_some(),
        editable: seed.editable,
        selection: seed.select,
        table: seed.columns.is_some(),
        action: seed.actions.len() != 0,
    }
}

/// Forgets a node that was noted, if it was.
fn take_back(lacking: &mut BTreeSet<u32>, node: u32)
    ensures { (n : ℕ) → contains nat_cmp lacking.new n
        ≡ cond (is_at (nat_cmp node) n) false (contains nat_cmp lacking.old n) }
{
    lacking.remove(&node);
}

/// Any other step.
pub(crate) fn keep(marks: &Marks, tree: &mut WholeTree, step: &Step) -> Result<(), NoMemory>
    requires marks { AreMarks marks.now (shape_of tree.old.forest) }
    requires can { StepCanBe tree.old step.now }
    requires is { IsOther step.now }
    ensures marks { AreMarks marks.now (shape_of tree.new.forest) }
    ensures ok { OnOk result (tree.new ≡ tree_after tree.old step.now) }
    ensures err { OnErr result (tree.new ≡ tree.old) }
{
    let _ = tree.tree();
    tree.apply(step)
}

/// A new node.
pub(crate) fn add(
    marks: &mut Marks,
    tree: &mut WholeTree,
    step: &Step,
    node: u32,
    seed: &Seed,
) -> Result<(), NoMemory>
    requires marks { AreMarks marks.old (shape_of tree.old.forest) }
    requires can { StepCanBe tree.old step.now }
    requires is { IsAdd step.now node seed.now }
    ensures marks { AreMarks marks.new (shape_of tree.new.forest) }
    ensures told { marks.new.told ≡ marks.old.told }
    ensures ok { OnOk result (tree.new ≡ tree_after tree.old step.now) }
    ensures err { OnErr result (tree.new ≡ tree.old) }
{
    let _ = tree.tree();
    let test = is_lacking(known_of(&marks.told, node), kinds_of_seed(seed));
    note_if(&mut marks.lacking, node, test)?;
    match tree.apply(step) {
        Ok(()) => Ok(()),
        Err(none) => {
            take_back(&mut marks.lacking, node);
            Err(none)
        }
    }
}

/// A node goes, with all that is below it.
pub(crate) fn remove(marks: &mut Marks, tree: &mut WholeTree, node: u32)
    requires marks { AreMarks marks.old (shape_of tree.old.forest) }
    requires can { StepCanBe tree.old (Remove node) }
    ensures marks { AreMarks marks.new (shape_of tree.new.forest) }
    ensures told { marks.new.told ≡ marks.old.told }
    ensures tree { tree.new ≡ tree_after tree.old (Remove node) }
{
    forget(&mut marks.lacking, tree.tree(), node);
    tree.take_out(node);
}
