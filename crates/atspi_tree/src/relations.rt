//! The relations of a node as pairs of their kind and one target.

ghost use Rattle.std.specs.Prelude.{◌≡◌, ◌==◌, ◌++◌, [], length, filter, map, not, true, IfOk, OnOk};
ghost use Rattle.std.specs.List.{position_or_len};
ghost use Rattle.std.specs.Ordering.{nat_cmp};
ghost use Rattle.std.specs.BTreeSet.{contains};
ghost use Rattle.atspi_tree_model.specs.Row.{Each, targets_of, with_targets, without_targets};

use atspi_base::NoMemory;
use std::alloc::Global;
use std::collections::BTreeSet;
use std::marker::Model;

/// The relations of a node. Those of one kind stand together, so their targets are a part of the list of all targets.
#[derive(Drop)]
pub(crate) struct Relations {
    pairs: Vec<(u32, u32)>,
    /// The target of each pair.
    targets: Vec<u32>,
}

impl Model for Relations {
    ghost use Rattle.std.specs.Prelude.{ℕ, List};
    ghost use Rattle.std.specs.Coded.{coded_list, coded×, coded_ℕ};
    ghost use Rattle.atspi_tree.specs.Relations.{AreKept};

    ghost Value = { List (ℕ × ℕ) };

    ghost coded = { coded_list (coded× coded_ℕ coded_ℕ) };

    ghost view = { λ r. r.pairs.items };

    ghost invariant = { λ r. AreKept r.pairs.items r.targets.items };
}

impl Relations {
    /// None.
    pub(crate) fn new(alloc: Global) -> Relations
        ensures { result ≡ [] }
    {
        Relations {
            pairs: Vec::new(alloc),
            targets: Vec::new(alloc),
        }
    }

    /// The same relations.
    pub(crate) fn copy(&self, alloc: Global) -> Result<Relations, NoMemory>
        ensures { IfOk result (λ copy. copy ≡ self.now) }
    {
        Ok(Relations {
            pairs: self.pairs.to_vec(alloc)?,
            targets: self.targets.to_vec(alloc)?,
        })
    }

    /// The kind and one target of each relation.
    pub(crate) fn pairs(&self) -> &[(u32, u32)]
        ensures { result.now ≡ self.now }
    {
        &self.pairs
    }

    /// The targets of one kind.
    pub(crate) fn of_kind(&self, kind: u32) -> &[u32]
        ensures { result.now ≡ targets_of kind self.now }
    {
        let first = first_of_kind(&self.pairs, kind);
        let count = count_of_kind(&self.pairs, kind);
        &self.targets[first..first + count]
    }

    /// The relations with these targets in place of those of that kind.
    pub(crate) fn with_targets(
        &self,
        alloc: Global,
        kind: u32,
        targets: &[u32],
    ) -> Result<Relations, NoMemory>
        ensures { IfOk result (λ new. new ≡ with_targets kind targets.now self.now) }
    {
        let mut pairs = other_kinds(alloc, &self.pairs, kind)?;
        push_targets(&mut pairs, kind, targets)?;
        let targets = targets_in(alloc, &pairs)?;
        Ok(Relations { pairs, targets })
    }

    /// Takes a number out of the targets.
    pub(crate) fn drop_target(&mut self, target: u32)
        ensures { self.new ≡ without_targets (λ t. t == target) self.old }
    {
        self.pairs.retain(|r| r.1 != target);
        self.targets.retain(|t| *t != target);
    }
}

/// The index of the first relation of a kind, or how many relations there are.
fn first_of_kind(relations: &[(u32, u32)], kind: u32) -> usize
    ensures { result ≡ position_or_len (λ r. r.0 == kind) relations.now }
{
    relations.iter().take_while(|r| r.0 != kind).count()
}

/// How many relations are of a kind.
fn count_of_kind(relations: &[(u32, u32)], kind: u32) -> usize
    ensures { result ≡ length (filter (λ r. r.0 == kind) relations.now) }
{
    relations.iter().filter(|r| r.0 == kind).count()
}

/// The relations that are not of this kind.
fn other_kinds(
    alloc: Global,
    relations: &[(u32, u32)],
    kind: u32,
) -> Result<Vec<(u32, u32)>, NoMemory>
    ensures { IfOk result (λ v. v.items ≡ filter (λ r. not (r.0 == kind)) relations.now) }
{
    let others = relations
        .iter()
        .copied()
        .filter(|r| r.0 != kind)
        .collect(alloc)?;
    Ok(others)
}

/// Appends targets of one kind.
#[tactic(auto, using(std::proofs::lemmas::List::map_more))]
fn push_targets(relations: &mut Vec<(u32, u32)>, kind: u32, targets: &[u32]) -> Result<(), NoMemory>
    ensures { OnOk result (relations.new.items ≡ relations.old.items ++ map (λ t. (kind, t)) targets.now) }
{
    for target in targets {
        relations.push((kind, *target))?;
    }
    Ok(())
}

/// The target of each relation.
fn targets_in(alloc: Global, relations: &[(u32, u32)]) -> Result<Vec<u32>, NoMemory>
    ensures { IfOk result (λ v. v.items ≡ map (λ r. r.1) relations.now) }
{
    let targets = relations.iter().map(|r| r.1).collect(alloc)?;
    Ok(targets)
}

/// The set of the targets of relations.
pub(crate) fn target_set(alloc: Global, relations: &[(u32, u32)]) -> Result<BTreeSet<u32>, NoMemory>
    ensures { IfOk result (λ named. Each (λ t. contains nat_cmp named t ≡ true) (map (λ r. r.1) relations.now)) }
{
    let mut named = BTreeSet::new(alloc);
    for relation in relations {
        named.insert(relation.1)?;
    }
    Ok(named)
}
