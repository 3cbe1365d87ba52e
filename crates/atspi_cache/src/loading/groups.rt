//! The items by the path of their parent.

ghost use Rattle.std.specs.Prelude.{◌≡◌, ℕ, ◌++◌, [], ◌∷◌, List, cond, filter, bytes_eq, Some, None, IfOk, OnOk};
ghost use Rattle.std.specs.HashMap.{get_by};
ghost use Rattle.std.specs.Option.{option_map};
ghost use Rattle.atspi_cache.specs.loading.Shared.{grouped, is_below, is_lower, shared};

use crate::loading::own::is_bus;
use atspi_base::valid_names::Path;
use atspi_base::{NoMemory, Text};
use atspi_tree_model::Item;
use std::alloc::Global;
use std::collections::HashMap;

/// Whether two paths are the same, as a test that computes.
pub(crate) fn is_path(path: &Path, other: &Path) -> bool
    ensures { result ≡ bytes_eq path.now other.now }
{
    path.is(other)
}

/// Appends an item where a test passed.
pub(crate) fn push_if<'a>(
    items: &mut Vec<&'a Item>,
    passes: bool,
    item: &'a Item,
) -> Result<(), NoMemory>
    ensures { OnOk result (items.new.items ≡ cond passes (items.old.items ++ item.entry ∷ []) items.old.items) }
{
    if passes {
        items.push(item)?;
    }
    Ok(())
}

/// Whether an item may stand below another.
fn is_lower(item: &Item, root: &Path, bus: &Text) -> bool
    ensures { result ≡ is_lower root.now bus.now item.now }
{
    !is_path(&item.object.path, root) && is_bus(&item.parent.bus, bus)
}

/// The items that may stand below others: all but the root, and those whose parent is another application's.
fn lower_items<'a>(
    alloc: Global,
    root: &Path,
    bus: &Text,
    own: &[&'a Item],
) -> Result<Vec<&'a Item>, NoMemory>
    ensures { IfOk result (λ lower. shared lower.items ≡ filter (is_lower root.now bus.now) (shared own.now)) }
{
    let mut lower = Vec::new(alloc);
    for item in own {
        push_if(&mut lower, is_lower(*item, root, bus), *item)?;
    }
    Ok(lower)
}

/// Items by the path of their parent, in order.
fn by_parent<'a>(
    alloc: Global,
    lower: &[&'a Item],
) -> Result<HashMap<&'a str, Vec<&'a Item>>, NoMemory>
    ensures { IfOk result
        (λ groups. (path : List ℕ)
        → grouped (option_map (λ group. group.items) (get_by (λ k. bytes_eq path k.now) groups))
        ≡ filter (λ item. bytes_eq path item.parent.path) (shared lower.now)) }
{
    let mut groups: HashMap<&'a str, Vec<&'a Item>> = HashMap::new(alloc);
    for item in lower {
        groups
            .entry(item.parent.path.as_str())?
            .or_default()
            .push(*item)?;
    }
    Ok(groups)
}

/// The items by the path of their parent, in order. The root and items whose parent is another application's are in no
/// group.
pub(crate) fn groups<'a>(
    alloc: Global,
    root: &Path,
    bus: &Text,
    own: &[&'a Item],
) -> Result<HashMap<&'a str, Vec<&'a Item>>, NoMemory>
    ensures { IfOk result
        (λ groups. (path : List ℕ)
        → grouped (option_map (λ group. group.items) (get_by (λ k. bytes_eq path k.now) groups))
        ≡ filter (is_below root.now bus.now path) (shared own.now)) }
{
    let lower = lower_items(alloc, root, bus, own)?;
    by_parent(alloc, &lower)
}
