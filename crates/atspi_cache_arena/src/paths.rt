//! The root of an application, and the keys of its rows by their paths.

ghost use Rattle.std.specs.Prelude.{◌≡◌, ◌≢◌, ◌==◌, ℕ, List, [], Option, cond, true, false, Some, None, IsSome, OnOk};
ghost use Rattle.std.specs.Prelude.{OnErr, IfOk, ◌<◌, bytes_eq, string_bytes};
ghost use Rattle.std.specs.HashMap.{get_by_text, spare};
ghost use Rattle.std.specs.Option.{option_copied};
ghost use Rattle.slab.specs.Slab.{HasRoomFor};
ghost use Rattle.atspi_tree_model.specs.declared.view.Row.{Row};
ghost use Rattle.atspi_cache_arena.specs.Keys.{Kept};
ghost use Rattle.atspi_cache_arena.specs.Table.{has_path, is_among, is_this, look_in, parent_in, path_among};
ghost use Rattle.atspi_cache_arena.specs.Table.{root_after, sits, with_child, without_child};

use crate::cell::{Cell, link, seat_for, unlink};
use atspi_base::NoMemory;
use atspi_base::valid_names::Path;
use atspi_tree_model::Row;
use indexmap::IndexMap;
use slab::Slab;
use std::alloc::Global;

/// Where the rows are: the root, and the key of each path.
#[derive(Drop)]
pub(crate) struct Paths {
    pub(crate) root: Option<usize>,
    pub(crate) index: IndexMap<String, usize>,
}

/// Puts a new row below a parent, under the slab's next key. All memory is taken before the first change.
pub(crate) fn insert_below(
    alloc: Global,
    cells: &mut Slab<Cell>,
    paths: &mut Paths,
    parent: usize,
    at: Option<usize>,
    row: Row,
) -> Result<(), NoMemory>
    requires is_there { IsSome (look_in cells.old parent) }
    ensures fresh { OnOk result (look_in cells.old cells.old.vacant_key ≡ None) }
    ensures new { OnOk result
        (look_in cells.new cells.old.vacant_key ≡ Some (record { row = row; children = []; parent = Some parent })) }
    ensures below { (k : Kept Row) → look_in cells.old parent ≡ Some k
        → OnOk result (look_in cells.new parent ≡ Some (with_child at cells.old.vacant_key k)) }
    ensures others { OnOk result
        ((n : ℕ) → n ≢ parent → n ≢ cells.old.vacant_key → look_in cells.new n ≡ look_in cells.old n) }
    ensures index { OnOk result
        ((q : List ℕ)
        → get_by_text paths.new.index q
        ≡ cond (bytes_eq row.path q) (Some cells.old.vacant_key) (get_by_text paths.old.index q)) }
    ensures root { paths.new.root ≡ paths.old.root }
    ensures err { OnErr result ((n : ℕ) → look_in cells.new n ≡ look_in cells.old n) }
    ensures err_index { OnErr result ((q : List ℕ) → get_by_text paths.new.index q ≡ get_by_text paths.old.index q) }
{
    let own = make_ready(alloc, cells, paths, &row.path)?;
    let key = cells.vacant_key();
    let seat = seat_for(cells, parent, at);
    link(cells, parent, at, key)?;
    cells.insert_reserved(Cell {
        row,
        parent: Some(parent),
        children: Vec::new(alloc),
        seat,
    });
    match paths.index.insert(own, key) {
        Ok(_) => Ok(()),
        Err(_) => unreachable!(),
    }
}

/// Makes room for one more row, and gives its path for the index.
fn make_ready(
    alloc: Global,
    cells: &mut Slab<Cell>,
    paths: &mut Paths,
    path: &Path,
) -> Result<String, NoMemory>
    ensures path { IfOk result (λ own. string_bytes own ≡ path.now) }
    ensures cells_room { OnOk result (HasRoomFor cells.new 1) }
    ensures index_room { OnOk result (0 < spare paths.new.index) }
    ensures cells { cells.new ≡ record cells.old { capacity = cells.new.capacity } }
    ensures index { (q : List ℕ) → get_by_text paths.new.index q ≡ get_by_text paths.old.index q }
    ensures root { paths.new.root ≡ paths.old.root }
{
    cells.reserve(1)?;
    paths.index.reserve(1)?;
    Ok(String::from_str(alloc, path.as_str())?)
}

/// Removes the cells of some keys, and their paths.
pub(crate) fn sweep(cells: &mut Slab<Cell>, paths: &mut Paths, keys: &[usize])
    ensures cells { (n : ℕ) → look_in cells.new n ≡ cond (is_among n keys.now) None (look_in cells.old n) }
    ensures index { (q : List ℕ)
        → get_by_text paths.new.index q
        ≡ cond (path_among (look_in cells.old) q keys.now) None (get_by_text paths.old.index q) }
    ensures root { paths.new.root ≡ paths.old.root }
{
    for key in keys {
        drop_one(cells, paths, *key);
    }
}

/// Removes the cell of a key, and its path.
fn drop_one(cells: &mut Slab<Cell>, paths: &mut Paths, key: usize)
    ensures here { look_in cells.new key ≡ None }
    ensures others { (n : ℕ) → n ≢ key → look_in cells.new n ≡ look_in cells.old n }
    ensures index { (q : List ℕ)
        → get_by_text paths.new.index q
        ≡ cond (has_path q (look_in cells.old key)) None (get_by_text paths.old.index q) }
    ensures root { paths.new.root ≡ paths.old.root }
{
    if let Some(cell) = cells.try_remove(key) {
        paths.index.swap_remove(cell.row.path.as_str());
    }
}

/// Takes a row out of its place, and removes it and all below it, whose keys are given.
pub(crate) fn remove_subtree(
    cells: &mut Slab<Cell>,
    paths: &mut Paths,
    key: usize,
    keys: Vec<usize>,
)
    ensures gone { (n : ℕ) → is_among n keys.items ≡ true → look_in cells.new n ≡ None }
    ensures none { (n : ℕ) → look_in cells.old n ≡ None → look_in cells.new n ≡ None }
    ensures parent { (p : ℕ) → parent_in (look_in cells.old key) ≡ Some p → is_among p keys.items ≡ false
        → (k : Kept Row) → look_in cells.old p ≡ Some k → look_in cells.new p ≡ Some (without_child key k) }
    ensures others { (n : ℕ) → is_among n keys.items ≡ false → parent_in (look_in cells.old key) ≢ Some n
        → look_in cells.new n ≡ look_in cells.old n }
    ensures index { (q : List ℕ)
        → get_by_text paths.new.index q
        ≡ cond (path_among (look_in cells.old) q keys.items) None (get_by_text paths.old.index q) }
    ensures root { paths.new.root ≡ root_after (parent_in (look_in cells.old key)) paths.old.root }
{
    let parent = parent_of(cells, key);
    sweep(cells, paths, &keys);
    match parent {
        Some(p) => unlink(cells, p, key),
        None => paths.root = None,
    }
}

/// The parent of a row.
pub(crate) fn parent_of(cells: &Slab<Cell>, key: usize) -> Option<usize>
    ensures { result ≡ parent_in (look_in cells.now key) }
{
    match cells.get(key) {
        Some(cell) => cell.parent,
        None => None,
    }
}

/// Puts the root into an empty slab, under the next key.
pub(crate) fn put_root(
    alloc: Global,
    cells: &mut Slab<Cell>,
    paths: &mut Paths,
    row: Row,
) -> Result<(), NoMemory>
    ensures fresh { OnOk result (look_in cells.old cells.old.vacant_key ≡ None) }
    ensures new { OnOk result
        (look_in cells.new cells.old.vacant_key ≡ Some (record { row = row; children = []; parent = None })) }
    ensures others { OnOk result ((n : ℕ) → n ≢ cells.old.vacant_key → look_in cells.new n ≡ look_in cells.old n) }
    ensures index { OnOk result
        ((q : List ℕ)
        → get_by_text paths.new.index q
        ≡ cond (bytes_eq row.path q) (Some cells.old.vacant_key) (get_by_text paths.old.index q)) }
    ensures root { OnOk result (paths.new.root ≡ Some cells.old.vacant_key) }
    ensures err { OnErr result ((n : ℕ) → look_in cells.new n ≡ look_in cells.old n) }
    ensures err_index { OnErr result ((q : List ℕ) → get_by_text paths.new.index q ≡ get_by_text paths.old.index q) }
    ensures err_root { OnErr result (paths.new.root ≡ paths.old.root) }
{
    let own = make_ready(alloc, cells, paths, &row.path)?;
    let key = cells.vacant_key();
    cells.insert_reserved(Cell {
        row,
        parent: None,
        children: Vec::new(alloc),
        seat: 0,
    });
    match paths.index.insert(own, key) {
        Ok(_) => {
            paths.root = Some(key);
            Ok(())
        }
        Err(_) => unreachable!(),
    }
}

/// Whether a key stands at an index of the children of its parent, which has this path.
pub(crate) fn sits(cells: &Slab<Cell>, parent: &Path, index: usize, key: usize) -> bool
    ensures { result ≡ sits (look_in cells.now) parent.now index key }
{
    let Some(up) = parent_of(cells, key) else {
        return false;
    };
    match cells.get(up) {
        Some(cell) => has_path(&cell.row, parent) && is_this(cell.children.get(index), key),
        None => false,
    }
}

/// Whether a row has this path, as a test that computes.
fn has_path(row: &Row, path: &Path) -> bool
    ensures { result ≡ bytes_eq row.now.path path.now }
{
    row.path.is(path)
}

/// Whether a value is this key.
fn is_this(child: Option<&usize>, key: usize) -> bool
    ensures { result ≡ is_this key (option_copied child.entry) }
{
    match child {
        Some(child) => *child == key,
        None => false,
    }
}
