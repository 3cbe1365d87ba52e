//! Loads of very many items, in the worst order.

use crate::cached::load;
use crate::words::put_item;
use atspi_cache::Cache;
use atspi_tree_model::Items;
use std::alloc::Global;
use std::test::*;

/// So many items, the last first: each below the one before it, or all below the first.
fn items(alloc: Global, count: u32, is_deep: bool) -> Option<Items> {
    let mut items = Items::new(alloc);
    for node in (0..count).rev() {
        let parent = if is_deep { node.saturating_sub(1) } else { 0 };
        let words = format!(in alloc; "/n{node} /n{parent} {node}").ok()?;
        put_item(alloc, &mut items, words.as_str())?;
    }
    Some(items)
}

/// How many rows a cache has, and the index of the last.
fn rows(cache: &Cache) -> Option<(u32, i32)> {
    let mut shown = 0u32;
    let mut index = 0;
    for seen in cache.rows(7)? {
        shown = shown.saturating_add(1);
        index = seen.index;
    }
    Some((shown, index))
}

/// Whether a load of 100,001 of them keeps as many rows, the last with this index.
fn keeps(alloc: Global, cache: &mut Cache, is_deep: bool, index: i32) -> Option<bool> {
    load(alloc, cache, "/n0", items(alloc, 100_001, is_deep)?)?;
    Some(rows(cache)? == (100_001, index))
}

#[test]
fn one_parent_of_many(rt: HostRuntime) {
    let mut cache = Cache::new(rt.alloc());
    assert!(rt; keeps(rt.alloc(), &mut cache, false, 99_999) == Some(true));
}

#[test]
fn a_path_down_many(rt: HostRuntime) {
    let mut cache = Cache::new(rt.alloc());
    assert!(rt; keeps(rt.alloc(), &mut cache, true, 0) == Some(true));
}
