//! The items that are the application's own, the first of each object.

ghost use Rattle.std.specs.Prelude.{◌≡◌, ℕ, List, bytes_eq, IfOk, OnOk};
ghost use Rattle.std.specs.HashSet.{contains_by};
ghost use Rattle.atspi_tree_model.specs.News.{own_items};
ghost use Rattle.atspi_cache.specs.loading.inner.Own.{has_object, with_own};
ghost use Rattle.atspi_cache.specs.loading.Shared.{shared};

use atspi_base::{NoMemory, Text};
use atspi_tree_model::Item;
use std::alloc::Global;
use std::collections::HashSet;

/// Whether two bus names are the same, as a test that computes.
pub(crate) fn is_bus(name: &Text, bus: &Text) -> bool
    ensures { result ≡ bytes_eq name.now bus.now }
{
    name.is(bus)
}

/// Appends an item where its object is the application's own and none before it had that object.
fn take_in<'a>(
    own: &mut Vec<&'a Item>,
    seen: &mut HashSet<&'a str>,
    bus: &Text,
    item: &'a Item,
) -> Result<(), NoMemory>
    requires told { (path : List ℕ)
        → contains_by (λ k. bytes_eq path k.now) seen.old ≡ has_object path (shared own.old.items) }
    ensures own { OnOk result (shared own.new.items ≡ with_own bus.now (shared own.old.items) item.now) }
    ensures seen { OnOk result
        ((path : List ℕ) → contains_by (λ k. bytes_eq path k.now) seen.new ≡ has_object path (shared own.new.items)) }
{
    if !is_bus(&item.object.bus, bus) {
        return Ok(());
    }
    if seen.insert(item.object.path.as_str())? {
        own.push(item)?;
    }
    Ok(())
}

/// The application's own items, the first of each object.
pub(crate) fn own_items<'a>(
    alloc: Global,
    bus: &Text,
    items: &'a [Item],
) -> Result<Vec<&'a Item>, NoMemory>
    ensures { IfOk result (λ own. shared own.items ≡ own_items bus.now items.now) }
{
    let mut own = Vec::new(alloc);
    let mut seen = HashSet::new(alloc);
    for item in items {
        take_in(&mut own, &mut seen, bus, item)?;
    }
    Ok(own)
}
