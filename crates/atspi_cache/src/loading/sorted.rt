//! A list of items in the order of their index.

ghost use Rattle.std.specs.Prelude.{◌≡◌, OnOk, reverse};
ghost use Rattle.atspi_tree_model.specs.News.{by_index};
ghost use Rattle.atspi_cache.specs.loading.Shared.{shared};

use atspi_base::NoMemory;
use atspi_tree_model::Item;

/// Puts the items in falling order of index, those of one index in the reverse of their order.
pub(crate) fn last_first(items: &mut Vec<&Item>) -> Result<(), NoMemory>
    ensures { OnOk result (shared items.new.items ≡ reverse (by_index (shared items.old.items))) }
{
    items.sort_by_key(|item| item.index)?;
    items.reverse();
    Ok(())
}
