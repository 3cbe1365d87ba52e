//! The rows of a list of items.

ghost use Rattle.std.specs.Prelude.{◌≡◌, false, None, OnOk, OnErr, IfOk};
ghost use Rattle.atspi_tree_model.specs.Forest.{has, nil, put_in, tree};
ghost use Rattle.atspi_tree_model.specs.News.{fresh, is_path, load};

use crate::item::row_of;
use crate::loading::reached_items;
use atspi_base::valid_names::Path;
use atspi_base::{NoMemory, Text};
use atspi_cache_arena::Arena;
use atspi_tree_model::Item;
use std::alloc::Global;

/// Puts the row of an item behind the other children of its parent.
fn put_last(alloc: Global, rows: &mut Arena, item: &Item) -> Result<(), NoMemory>
    requires is_new { has (is_path item.now.object.path) rows.old ≡ false }
    ensures ok { OnOk result
        (rows.new ≡ put_in (is_path item.now.parent.path) None (tree (fresh item.now) nil nil) rows.old) }
{
    rows.insert(&item.parent.path, None, row_of(alloc, item)?)
}

/// Puts the rows of a list of items where there is none, those of the items that the root reaches one after another.
fn fill(
    alloc: Global,
    rows: &mut Arena,
    root: &Path,
    bus: &Text,
    items: &[Item],
) -> Result<(), NoMemory>
    requires empty { rows.old ≡ nil }
    ensures { OnOk result (rows.new ≡ load root.now bus.now items.now) }
{
    let reached = reached_items(alloc, root, bus, items)?;
    let Some((first, others)) = reached.split_first() else {
        return Ok(());
    };
    rows.insert_root(row_of(alloc, *first)?)?;
    for item in others {
        put_last(alloc, rows, *item)?;
    }
    Ok(())
}

/// The rows of a list of items. Work is n log n.
pub(crate) fn load(
    alloc: Global,
    root: &Path,
    bus: &Text,
    items: &[Item],
) -> Result<Arena, NoMemory>
    ensures { IfOk result (λ rows. rows ≡ load root.now bus.now items.now) }
{
    let mut rows = Arena::new(alloc);
    fill(alloc, &mut rows, root, bus, items)?;
    Ok(rows)
}
