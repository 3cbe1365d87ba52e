//! Drawn news of an application with the root `/n0`: after each the rows are those of a plain list that took it, too.

use crate::cached::{load, shown, tell};
use crate::plain::{Node, moved, root, told, without};
use crate::words::items_of;
use atspi_cache::Cache;
use std::alloc::Global;
use std::test::*;

/// A number below a limit that is not 0, drawn from a state that goes on.
fn draw(state: &mut u64, below: u32) -> u32 {
    *state = state
        .wrapping_mul(6_364_136_223_846_793_005)
        .wrapping_add(1_442_695_040_888_963_407);
    ((*state >> 33) % u64::from(below.max(1))) as u32
}

/// A drawn news, taken by the cache. Answers the nodes of the list that took it, too.
fn turn(alloc: Global, state: &mut u64, cache: &mut Cache, nodes: &[Node]) -> Option<Vec<Node>> {
    let node = draw(state, 12).saturating_add(1);
    let other = draw(state, 13);
    let index = ((draw(state, 8) % 8) as i32).wrapping_sub(2);
    let is_removal = draw(state, 4) == 0;
    let kind = if is_removal { "removed" } else { "item" };
    let words = format!(in alloc; "{kind} /n{node} /n{other} {index}").ok()?;
    tell(alloc, cache, words.as_str())?;
    if is_removal {
        without(alloc, nodes, node)
    } else {
        moved(alloc, nodes, node, other, index)
    }
}

/// Whether the rows of a cache are these nodes.
fn agrees(alloc: Global, cache: &Cache, nodes: &[Node]) -> Option<bool> {
    let rows = shown(alloc, cache)?;
    let due = told(alloc, nodes)?;
    Some(rows.as_str() == due.as_str())
}

/// Loads the root alone.
fn load_root(alloc: Global, cache: &mut Cache) -> Option<()> {
    load(alloc, cache, "/n0", items_of(alloc, "/n0 /n0 0")?)
}

#[test]
fn drawn_news_make_what_a_plain_list_makes(rt: HostRuntime) {
    let mut state = 11u64;
    let mut cache = Cache::new(rt.alloc());
    assert!(rt; load_root(rt.alloc(), &mut cache).is_some());
    let mut nodes = root(rt.alloc()).expect(&rt, "memory");
    for news in 0..2000 {
        nodes = turn(rt.alloc(), &mut state, &mut cache, &nodes).expect(&rt, "memory");
        assert!(rt;
            agrees(rt.alloc(), &cache, &nodes) == Some(true),
            "news {news}"
        );
    }
}
