//! The arena itself.

ghost use Rattle.std.specs.Prelude.{◌≡◌, ◌≤◌, ℕ, Option, false, true, Some, None, OnOk, OnErr, IfOk};
ghost use Rattle.std.specs.Option.{option_copied};
ghost use Rattle.std.specs.HashMap.{get_by_text};
ghost use Rattle.atspi_tree_model.specs.Forest.{change, find, has, nil, pick, put_in, take_out, tree};
ghost use Rattle.atspi_tree_model.specs.News.{is_path, is_seat_at, seat_in, spot};
ghost use Rattle.atspi_cache_arena.specs.Change.{changed};
ghost use Rattle.atspi_cache_arena.specs.Sights.{sights};
ghost use Rattle.atspi_cache_arena.specs.Table.{is_among};
ghost use Rattle.atspi_tree_model.specs.Laws.{EachPathOnce};

use crate::cell::{Cell, change_row, relink, subtree};
use crate::change::Change;
use crate::paths::{Paths, insert_below, parent_of, put_root, remove_subtree, sits};
use crate::rows::{Rows, rows_from};
use atspi_base::NoMemory;
use atspi_base::valid_names::Path;
use atspi_tree_model::Row;
use indexmap::IndexMap;
use slab::Slab;
use std::alloc::Global;
use std::marker::Model;

/// The rows of one application. Contracts see their forest.
#[derive(Drop)]
pub struct Arena {
    alloc: Global,
    cells: Slab<Cell>,
    paths: Paths,
}

impl Model for Arena {
    ghost use Rattle.atspi_tree_model.specs.contracts.view.Row as view_row;
    ghost use Rattle.atspi_tree_model.specs.declared.view.Row.{Row};
    ghost use Rattle.atspi_tree_model.specs.Forest.{Forest};
    ghost use Rattle.atspi_tree_model.specs.ForestCode.{forest_code};
    ghost use Rattle.atspi_cache_arena.specs.Arena.{IsArena, rows_of};

    ghost Value = { Forest Row };

    ghost coded = { forest_code view_row.the_row.coded };

    ghost view = { λ a. rows_of a.cells a.paths };

    ghost invariant = { λ a. IsArena a.cells a.paths };
}

impl Arena {
    /// No row.
    pub fn new(alloc: Global) -> Arena
        ensures { result ≡ nil }
    {
        Arena {
            alloc,
            cells: Slab::new(alloc),
            paths: Paths {
                root: None,
                index: IndexMap::new(alloc),
            },
        }
    }

    /// The row of a path.
    pub fn find(&self, path: &Path) -> Option<&Row>
        ensures found { option_copied result ≡ find (is_path path.now) self.now }
        ensures once { EachPathOnce self.now }
    {
        match key_of(&self.paths, path) {
            Some(key) => match self.cells.get(key) {
                Some(cell) => Some(&cell.row),
                None => None,
            },
            None => None,
        }
    }

    /// Puts a row below a parent, if that is known, before the child of this index, or at the end. After want of memory
    /// the rows are as before.
    pub fn insert(&mut self, parent: &Path, at: Option<usize>, row: Row) -> Result<(), NoMemory>
        requires is_new { has (is_path row.path) self.old ≡ false }
        ensures ok { OnOk result (self.new ≡ put_in (is_path parent.now) at (tree row nil nil) self.old) }
        ensures err { OnErr result (self.new ≡ self.old) }
    {
        let Some(key) = key_of(&self.paths, parent) else {
            return Ok(());
        };
        insert_below(self.alloc, &mut self.cells, &mut self.paths, key, at, row)
    }

    /// Takes a row out, and all below it. After want of memory the rows are as before.
    pub fn remove(&mut self, path: &Path) -> Result<(), NoMemory>
        ensures ok { OnOk result (self.new ≡ take_out (is_path path.now) self.old) }
        ensures err { OnErr result (self.new ≡ self.old) }
    {
        let Some(key) = key_of(&self.paths, path) else {
            return Ok(());
        };
        let keys = subtree(self.alloc, &self.cells, key)?;
        remove_subtree(&mut self.cells, &mut self.paths, key, keys);
        Ok(())
    }

    /// Moves a row, with all below it, among the children of another, which is not below it. After want of memory the
    /// rows are as before.
    pub fn move_to(&mut self, path: &Path, parent: &Path, at: Option<usize>) -> Result<(), NoMemory>
        requires there { has (is_path path.now) self.old ≡ true }
        requires outside { has (is_path parent.now) (take_out (is_path path.now) self.old) ≡ true }
        ensures ok { OnOk result
            (self.new
            ≡ put_in (is_path parent.now) at (pick (is_path path.now) self.old)
            (take_out (is_path path.now) self.old)) }
        ensures err { OnErr result (self.new ≡ self.old) }
    {
        let Some(key) = key_of(&self.paths, path) else {
            return Ok(());
        };
        let Some(to) = key_of(&self.paths, parent) else {
            return Ok(());
        };
        let Some(from) = parent_of(&self.cells, key) else {
            return Ok(());
        };
        relink(&mut self.cells, key, from, to, at)
    }

    /// Puts the root in where there is no row. After want of memory there is none still.
    pub fn insert_root(&mut self, row: Row) -> Result<(), NoMemory>
        requires empty { self.old ≡ nil }
        ensures ok { OnOk result (self.new ≡ tree row nil nil) }
        ensures err { OnErr result (self.new ≡ self.old) }
    {
        put_root(self.alloc, &mut self.cells, &mut self.paths, row)
    }

    /// Changes the row of a path, if there is one.
    pub fn change(&mut self, path: &Path, with: Change)
        ensures { self.new ≡ change (is_path path.now) (changed with) self.old }
    {
        if let Some(key) = key_of(&self.paths, path) {
            change_row(&mut self.cells, key, with);
        }
    }

    /// Whether a row stands at this index of this parent.
    pub fn stands_at(&self, path: &Path, parent: &Path, index: i32) -> bool
        ensures { result ≡ is_seat_at parent.now index (seat_in path.now self.now) }
    {
        let Some(place) = spot(index) else {
            return false;
        };
        match key_of(&self.paths, path) {
            Some(key) => sits(&self.cells, parent, place, key),
            None => false,
        }
    }

    /// The rows in preorder. Takes no memory.
    pub fn rows(&self) -> Rows
        ensures { result ≡ sights self.now }
    {
        rows_from(&self.cells, &self.paths)
    }

    /// Whether a row is there that is neither that of the path nor below it. `Err` comes for want of memory.
    pub fn is_outside(&self, row: &Path, path: &Path) -> Result<bool, NoMemory>
        ensures { IfOk result (λ outside. outside ≡ has (is_path row.now) (take_out (is_path path.now) self.now)) }
    {
        let Some(other) = key_of(&self.paths, row) else {
            return Ok(false);
        };
        let Some(key) = key_of(&self.paths, path) else {
            return Ok(true);
        };
        let keys = subtree(self.alloc, &self.cells, key)?;
        Ok(!is_among(other, &keys))
    }
}

/// The place among siblings that an index names: below zero it is the end.
pub fn spot(index: i32) -> Option<usize>
    ensures { result ≡ spot index }
{
    if index < 0 {
        None
    } else {
        Some(index as usize)
    }
}

/// The key of a row, by its path.
pub(crate) fn key_of(paths: &Paths, path: &Path) -> Option<usize>
    ensures { result ≡ get_by_text paths.now.index path.now }
{
    paths.index.get(path.as_str()).copied()
}

/// Whether a key stands in a list.
fn is_among(key: usize, keys: &[usize]) -> bool
    ensures { result ≡ is_among key keys.now }
{
    keys.contains(&key)
}
