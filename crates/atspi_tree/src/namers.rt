//! For each node the nodes whose relations name it: so a removal looks at these, and at no other node's relations.

ghost use Rattle.std.specs.Prelude.{◌≡◌, ◌==◌, ℕ, true, false, Some, IfOk, OnOk, OnErr};
ghost use Rattle.std.specs.Ordering.{nat_cmp};
ghost use Rattle.std.specs.BTreeMap.{Updates, IsUnchanged};
ghost use Rattle.atspi_tree_model.specs.Row.{Each};
ghost use Rattle.atspi_tree.specs.Namers.{ForgetsTarget, KeepsNamed, KeepsNotes, KeepsOthers, SameNotes, SetsNote};
ghost use Rattle.atspi_tree.specs.Namers.{has_namer, notes};

use atspi_base::NoMemory;
use std::alloc::Global;
use std::collections::{BTreeMap, BTreeSet};

/// The nodes that name each node. One may be noted that names the other no more, after want of memory in a step of its
/// relations; none is left out.
#[derive(Drop)]
pub(crate) struct Namers {
    sets: BTreeMap<u32, BTreeSet<u32>>,
}

impl Namers {
    /// No node names another.
    pub(crate) fn new(alloc: Global) -> Namers
        ensures { (t n : ℕ) → notes result.sets t n ≡ false }
    {
        Namers {
            sets: BTreeMap::new(alloc),
        }
    }

    /// The same nodes name the same.
    pub(crate) fn copy(&self) -> Result<Namers, NoMemory>
        ensures { IfOk result (λ copy. SameNotes self.now.sets copy.sets) }
    {
        Ok(Namers {
            sets: self.sets.clone()?,
        })
    }

    /// Notes that a node names a target.
    fn note(&mut self, alloc: Global, target: u32, node: u32) -> Result<(), NoMemory>
        ensures ok { OnOk result (SetsNote self.old.sets self.new.sets target node true) }
        ensures err { OnErr result (SameNotes self.old.sets self.new.sets) }
    {
        if let Some(nodes) = self.sets.get_mut(&target) {
            nodes.insert(node)?;
            return Ok(());
        }
        let mut nodes = BTreeSet::new(alloc);
        nodes.insert(node)?;
        put(&mut self.sets, target, nodes)
    }

    /// Notes that a node names these targets. After want of memory some of them are noted.
    pub(crate) fn note_each(
        &mut self,
        alloc: Global,
        targets: &[u32],
        node: u32,
    ) -> Result<(), NoMemory>
        ensures kept { KeepsNotes self.old.sets self.new.sets }
        ensures noted { OnOk result (Each (λ t. notes self.new.sets t node ≡ true) targets.now) }
    {
        for target in targets {
            self.note(alloc, *target, node)?;
        }
        Ok(())
    }

    /// Forgets that a node names a target.
    fn forget(&mut self, target: u32, node: u32)
        ensures note { SetsNote self.old.sets self.new.sets target node false }
        ensures others { KeepsOthers self.old.sets self.new.sets node }
    {
        if let Some(nodes) = self.sets.get_mut(&target) {
            nodes.remove(&node);
        }
    }

    /// Forgets that a node names the targets of these relations.
    pub(crate) fn forget_each(&mut self, relations: &[(u32, u32)], node: u32)
        ensures { KeepsOthers self.old.sets self.new.sets node }
    {
        for relation in relations {
            self.forget(relation.1, node);
        }
    }

    /// Forgets that a node names a target, unless it is still named.
    fn forget_unless(&mut self, target: u32, named: &BTreeSet<u32>, node: u32)
        ensures others { KeepsOthers self.old.sets self.new.sets node }
        ensures named { KeepsNamed self.old.sets self.new.sets named.now node }
    {
        if !named.contains(&target) {
            self.forget(target, node);
        }
    }

    /// Forgets that a node names the targets of these relations, but for those that are still named.
    pub(crate) fn forget_lost(&mut self, relations: &[(u32, u32)], named: &BTreeSet<u32>, node: u32)
        ensures others { KeepsOthers self.old.sets self.new.sets node }
        ensures named { KeepsNamed self.old.sets self.new.sets named.now node }
    {
        for relation in relations {
            self.forget_unless(relation.1, named, node);
        }
    }

    /// Takes out the nodes that name a target.
    pub(crate) fn take(&mut self, target: u32) -> Option<BTreeSet<u32>>
        ensures nodes { (n : ℕ) → has_namer result n ≡ notes self.old.sets target n }
        ensures rest { ForgetsTarget self.old.sets self.new.sets target }
    {
        self.sets.remove(&target)
    }
}

/// Puts the first nodes that name a target. After want of memory there are none.
fn put(
    sets: &mut BTreeMap<u32, BTreeSet<u32>>,
    target: u32,
    nodes: BTreeSet<u32>,
) -> Result<(), NoMemory>
    ensures ok { OnOk result (Updates nat_cmp sets.old sets.new target (Some nodes)) }
    ensures err { OnErr result (IsUnchanged sets.old sets.new) }
{
    sets.insert(target, nodes)?;
    Ok(())
}
