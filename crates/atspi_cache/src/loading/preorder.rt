//! The items that the root reaches, in preorder.

ghost use Rattle.std.specs.Prelude.{◌≡◌, ◌++◌, ◌∷◌, [], ℕ, List, filter, bytes_eq, reverse, IfOk, OnOk};
ghost use Rattle.std.specs.HashMap.{get_by};
ghost use Rattle.std.specs.Option.{option_map};
ghost use Rattle.atspi_tree_model.specs.News.{by_index};
ghost use Rattle.atspi_cache.specs.loading.Shared.{grouped, is_below, reached_items, shared};

use crate::loading::groups::{groups, is_path, push_if};
use crate::loading::own::own_items;
use crate::loading::sorted::last_first;
use atspi_base::valid_names::Path;
use atspi_base::{NoMemory, Text};
use atspi_tree_model::Item;
use std::alloc::Global;
use std::collections::HashMap;

/// The items of the root's object.
fn roots<'a>(alloc: Global, root: &Path, own: &[&'a Item]) -> Result<Vec<&'a Item>, NoMemory>
    ensures { IfOk result
        (λ roots. shared roots.items ≡ filter (λ item. bytes_eq item.object.path root.now) (shared own.now)) }
{
    let mut roots = Vec::new(alloc);
    for item in own {
        push_if(&mut roots, is_path(&item.object.path, root), *item)?;
    }
    Ok(roots)
}

/// Appends the group of a path, if there is one.
fn push_group<'a>(
    waiting: &mut Vec<&'a Item>,
    groups: &HashMap<&'a str, Vec<&'a Item>>,
    path: &Path,
) -> Result<(), NoMemory>
    ensures { OnOk result
        (shared waiting.new.items
        ≡ shared waiting.old.items
        ++ grouped (option_map (λ group. group.items) (get_by (λ k. bytes_eq path.now k.now) groups.now))) }
{
    if let Some(group) = groups.get(path.as_str()) {
        waiting.extend_from_slice(group)?;
    }
    Ok(())
}

/// Appends an item to those that are reached, and those below it to those that wait.
fn reach<'a>(
    reached: &mut Vec<&'a Item>,
    waiting: &mut Vec<&'a Item>,
    groups: &HashMap<&'a str, Vec<&'a Item>>,
    item: &'a Item,
) -> Result<(), NoMemory>
    ensures reached { OnOk result (reached.new.items ≡ reached.old.items ++ item.entry ∷ []) }
    ensures waiting { OnOk result
        (shared waiting.new.items
        ≡ shared waiting.old.items
        ++ grouped
        (option_map (λ group. group.items)
        (get_by (λ k. bytes_eq item.now.object.path k.now) groups.now))) }
{
    reached.push(item)?;
    push_group(waiting, groups, &item.object.path)
}

/// The items by the path of their parent, the last in each group first.
fn groups_last_first<'a>(
    alloc: Global,
    root: &Path,
    bus: &Text,
    mut own: Vec<&'a Item>,
) -> Result<HashMap<&'a str, Vec<&'a Item>>, NoMemory>
    ensures { IfOk result
        (λ groups. (path : List ℕ)
        → grouped (option_map (λ group. group.items) (get_by (λ k. bytes_eq path k.now) groups))
        ≡ filter (is_below root.now bus.now path) (reverse (by_index (shared own.entry.items)))) }
{
    last_first(&mut own)?;
    groups(alloc, root, bus, &own)
}

/// The items of a list that a load of an application keeps, in preorder, each before those below it: the first item of
/// each of its own objects that the root reaches by parents, children by index and then by their order in the list.
/// Work is n log n.
pub fn reached_items<'a>(
    alloc: Global,
    root: &Path,
    bus: &Text,
    items: &'a [Item],
) -> Result<Vec<&'a Item>, NoMemory>
    ensures { IfOk result (λ reached. shared reached.items ≡ reached_items root.now bus.now items.now) }
{
    let own = own_items(alloc, bus, items)?;
    let mut waiting = roots(alloc, root, &own)?;
    let groups = groups_last_first(alloc, root, bus, own)?;
    waiting.reverse();
    let mut reached = Vec::new(alloc);
    while let Some(item) = waiting.pop() {
        reach(&mut reached, &mut waiting, &groups, item)?;
    }
    Ok(reached)
}
