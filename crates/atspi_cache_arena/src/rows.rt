//! A walk over the rows in preorder, without memory.

ghost use Rattle.std.specs.Prelude.{◌≡◌, ◌-◌, ◌<◌, ℕ, pos, suc, min, length, List, Some, cond, false, nat_le};
ghost use Rattle.std.specs.Prelude.{slice_get};
ghost use Rattle.std.specs.Iterator.{YieldsFirstBy, item_count};
ghost use Rattle.std.specs.Option.{option_copied};
ghost use Rattle.atspi_cache_arena.specs.Table.{is_this, look_in, parent_in};
ghost use Rattle.atspi_cache_arena.specs.Arena.{IsArena, rows_of};
ghost use Rattle.atspi_cache_arena.specs.Sights.{sight, sights};
ghost use Rattle.atspi_cache_arena.specs.Walk.{At, EndsAt, Frame, IsAtIndex, IsNext, IsWay, Seat, behind, child_at};
ghost use Rattle.atspi_cache_arena.specs.Walk.{first_place, kids, left_of, path_under, seen_sight};

use crate::cell::Cell;
use crate::paths::{Paths, parent_of};
use atspi_base::valid_names::Path;
use atspi_tree_model::Row;
use slab::Slab;
use std::iter::FusedIterator;
use std::marker::Model;

/// A row as a walk shows it.
#[derive(Clone, Copy)]
pub struct Seen<'a> {
    /// The path of the parent, none for the root.
    pub parent: Option<&'a Path>,
    /// The index among the children of the parent, -1 for the root.
    pub index: i32,
    pub row: &'a Row,
}

/// A key, and its index among the children of its parent.
#[derive(Clone, Copy)]
pub(crate) struct Place {
    pub(crate) key: usize,
    pub(crate) index: usize,
}

/// The rows of an application in preorder. Contracts see the list of those that are left.
#[derive(Drop)]
pub struct Rows<'a> {
    cells: &'a Slab<Cell>,
    root: Option<usize>,
    next: Option<Place>,
}

impl<'a> Model for Rows<'a> {
    ghost use Rattle.std.specs.Prelude.{List};
    ghost use Rattle.std.specs.Coded.{coded_list};
    ghost use Rattle.atspi_tree_model.specs.contracts.view.Row as view_row;
    ghost use Rattle.atspi_cache_arena.specs.Sights.{Sight, sight_code};

    ghost Value = { List Sight };

    ghost coded = { coded_list (sight_code view_row.the_row.coded) };

    ghost use Rattle.atspi_cache_arena.specs.Walk.{IsWalk, sights_left};

    ghost view = { λ r. sights_left r.cells.now r.root r.next };

    ghost invariant = { λ r. IsWalk r.cells.now r.root r.next };
}

/// The path of the row under a key.
fn path_under(cells: &Slab<Cell>, key: Option<usize>) -> Option<&Path>
    ensures { option_copied result ≡ path_under (look_in cells.now) key }
{
    match key {
        Some(key) => match cells.get(key) {
            Some(cell) => Some(&cell.row.path),
            None => None,
        },
        None => None,
    }
}

/// The child at an index.
fn child_at(children: &[usize], index: usize) -> Option<Place>
    ensures { result ≡ child_at index children.now }
{
    match children.get(index) {
        Some(key) => Some(Place { key: *key, index }),
        None => None,
    }
}

/// The child behind the one at an index.
fn next_child(cells: &Slab<Cell>, parent: usize, index: usize) -> Option<Place>
    ensures { result ≡ child_at (suc index) (kids (look_in cells.now) parent) }
{
    match cells.get(parent) {
        Some(cell) => {
            if index < cell.children.len() {
                child_at(&cell.children, index + 1)
            } else {
                None
            }
        }
        None => None,
    }
}

/// A guess that is an index, where there is one.
fn within(guess: usize, len: usize) -> usize
    ensures { 0 < len → result < len }
{
    if guess < len { guess } else { 0 }
}

/// Whether a key stands at an index.
fn is_at(children: &[usize], index: usize, key: usize) -> bool
    ensures { result ≡ is_this key (slice_get children.now index) }
{
    match children.get(index) {
        Some(child) => *child == key,
        None => false,
    }
}

/// Whether a key stands so many places before an index.
fn is_before(children: &[usize], index: usize, places: usize, key: usize) -> bool
    ensures { result ≡ cond (nat_le places index) (is_this key (slice_get children.now (index - places))) false }
{
    if places > index {
        return false;
    }
    is_at(children, index - places, key)
}

/// The index of a key among some, if it is there: the nearest to a guess.
fn index_in(children: &[usize], guess: usize, key: usize) -> usize
    ensures { (i : ℕ) → slice_get children.now i ≡ Some key → slice_get children.now result ≡ Some key }
{
    let near = within(guess, children.len());
    for places in 0..children.len() {
        if is_at(children, near + places, key) {
            return near + places;
        }
        if is_before(children, near, places, key) {
            return near - places;
        }
    }
    0
}

/// The index of a key among the children of another, if it is there, searched for from a guess on.
fn index_below(cells: &Slab<Cell>, parent: usize, guess: usize, key: usize) -> usize
    ensures { (i : ℕ) → slice_get (kids (look_in cells.now) parent) i ≡ Some key
        → slice_get (kids (look_in cells.now) parent) result ≡ Some key }
{
    match cells.get(parent) {
        Some(cell) => index_in(&cell.children, guess, key),
        None => 0,
    }
}

/// Where a row was put among its siblings.
fn seat_of(cells: &Slab<Cell>, key: usize) -> usize {
    match cells.get(key) {
        Some(cell) => cell.seat,
        None => 0,
    }
}

/// The index of a key below its parent; 0 at the top.
fn index_of(cells: &Slab<Cell>, key: usize) -> usize
    ensures { (i : ℕ) → IsAtIndex (look_in cells.now) (parent_in (look_in cells.now key)) i key
        → IsAtIndex (look_in cells.now) (parent_in (look_in cells.now key)) result key }
{
    match parent_of(cells, key) {
        Some(parent) => index_below(cells, parent, seat_of(cells, key), key),
        None => 0,
    }
}

/// The row behind a row and all below it: the next sibling of the row, or of the nearest above it that has one.
fn after(cells: &Slab<Cell>, place: Place) -> Option<Place>
    requires there { (fs : List Frame) × IsWay (look_in cells.now) (length cells.now.slots) fs × EndsAt place fs }
    ensures { (fs : List Frame) → IsWay (look_in cells.now) (length cells.now.slots) fs → EndsAt place fs
        → IsNext (look_in cells.now) (length cells.now.slots) result (left_of fs) }
{
    let mut place = place;
    while let Some(parent) = parent_of(cells, place.key) {
        if let Some(next) = next_child(cells, parent, place.index) {
            return Some(next);
        }
        place = Place {
            key: parent,
            index: index_of(cells, parent),
        };
    }
    None
}

/// An index as it is shown.
fn shown_index(index: usize) -> i32
    ensures { result ≡ pos (min index 2147483647) }
{
    if index > 2147483647 {
        2147483647
    } else {
        index as i32
    }
}

/// The first child of a row.
fn first_child(cells: &Slab<Cell>, key: usize) -> Option<Place>
    ensures { result ≡ child_at 0 (kids (look_in cells.now) key) }
{
    match cells.get(key) {
        Some(cell) => child_at(&cell.children, 0),
        None => None,
    }
}

/// The row behind a row in preorder.
fn following(cells: &Slab<Cell>, place: Place) -> Option<Place>
    requires there { (rest : List Seat) × At (look_in cells.now) (length cells.now.slots) place rest }
    ensures { (rest : List Seat) → At (look_in cells.now) (length cells.now.slots) place rest
        → IsNext (look_in cells.now) (length cells.now.slots) result (behind rest) }
{
    match first_child(cells, place.key) {
        Some(child) => Some(child),
        None => after(cells, place),
    }
}

/// A row at an index as it is shown.
fn show<'a>(cells: &'a Slab<Cell>, cell: &'a Cell, index: usize) -> Seen<'a>
    ensures { seen_sight result ≡ sight (path_under (look_in cells.now) cell.now.parent, index, cell.now.row) }
{
    match path_under(cells, cell.parent) {
        Some(parent) => Seen {
            parent: Some(parent),
            index: shown_index(index),
            row: &cell.row,
        },
        None => Seen {
            parent: None,
            index: -1,
            row: &cell.row,
        },
    }
}

impl<'a> Iterator for Rows<'a> {
    type Item = Seen<'a>;

    ghost next_gives = { YieldsFirstBy seen_sight (λ rest. rest) };

    ghost remaining = { item_count (λ rest. rest) };

    fn next(&mut self) -> Option<Seen<'a>> {
        let cells = self.cells;
        let Some(place) = self.next else {
            return None;
        };
        let Some(cell) = cells.get(place.key) else {
            unreachable!()
        };
        self.next = following(cells, place);
        Some(show(cells, cell, place.index))
    }
}

impl<'a> FusedIterator for Rows<'a> {}

/// The place of the root.
fn first_place(root: Option<usize>) -> Option<Place>
    ensures { result ≡ first_place root }
{
    match root {
        Some(key) => Some(Place { key, index: 0 }),
        None => None,
    }
}

/// The rows from the root on.
pub(crate) fn rows_from<'a>(cells: &'a Slab<Cell>, paths: &Paths) -> Rows<'a>
    requires arena { IsArena cells.now paths.now }
    ensures { result ≡ sights (rows_of cells.now paths.now) }
{
    Rows {
        cells,
        root: paths.root,
        next: first_place(paths.root),
    }
}
