//! The cells, and the writes to the slab of them.

ghost use Rattle.std.specs.Prelude.{◌≡◌, ◌≢◌, ◌==◌, ℕ, Option, cond, length, not, Some, None, IsSome, OnOk, OnErr};
ghost use Rattle.std.specs.Prelude.{IfOk, IsOk};
ghost use Rattle.slab.specs.Slab.{slab_len};
ghost use Rattle.atspi_tree_model.specs.declared.view.Row.{Row};
ghost use Rattle.atspi_tree_model.specs.Forest.{Forest, count};
ghost use Rattle.atspi_cache_arena.specs.Keys.{Holds, Kept, Node, is_key};
ghost use Rattle.atspi_cache_arena.specs.Table.{IsSubtree, RoomAt, look_in, place_of, with_child, with_row};
ghost use Rattle.atspi_cache_arena.specs.Table.{without_child, without_child_if};
ghost use Rattle.atspi_cache_arena.specs.Change.{changed};

use crate::change::{Change, apply};
use atspi_base::NoMemory;
use atspi_tree_model::Row;
use slab::Slab;
use std::alloc::Global;

/// A row, and its place.
#[derive(Drop)]
pub(crate) struct Cell {
    pub(crate) row: Row,
    /// None for the root.
    pub(crate) parent: Option<usize>,
    pub(crate) children: Vec<usize>,
    /// Where it was put among its siblings: a guess, since each that came or went before it since then moved it by one.
    pub(crate) seat: usize,
}

/// Puts a key among the children of another, at an index or at the end.
pub(crate) fn link(
    cells: &mut Slab<Cell>,
    parent: usize,
    index: Option<usize>,
    key: usize,
) -> Result<(), NoMemory>
    requires is_there { IsSome (look_in cells.old parent) }
    ensures put { (k : Kept Row) → look_in cells.old parent ≡ Some k
        → OnOk result (look_in cells.new parent ≡ Some (with_child index key k)) }
    ensures others { (n : ℕ) → n ≢ parent → look_in cells.new n ≡ look_in cells.old n }
    ensures len { slab_len cells.new ≡ slab_len cells.old }
    ensures next { cells.new.vacant_key ≡ cells.old.vacant_key }
    ensures capacity { cells.new.capacity ≡ cells.old.capacity }
    ensures err { OnErr result ((n : ℕ) → look_in cells.new n ≡ look_in cells.old n) }
    ensures succeeds { RoomAt cells.old parent → IsOk result }
{
    match cells.get_mut(parent) {
        Some(cell) => {
            let len = cell.children.len();
            let at = place_of(index, len);
            match cell.children.insert(at, key) {
                Ok(()) => Ok(()),
                Err(_) => Err(NoMemory),
            }
        }
        None => unreachable!(),
    }
}

/// The place among so many that an index names: past them it is the end.
fn place_of(index: Option<usize>, len: usize) -> usize
    ensures { result ≡ place_of index len }
{
    match index {
        Some(at) => at.min(len),
        None => len,
    }
}

/// Where a child that is put at an index of a row, or at its end, will stand.
pub(crate) fn seat_for(cells: &Slab<Cell>, parent: usize, index: Option<usize>) -> usize
    ensures { (k : Kept Row) → look_in cells.now parent ≡ Some k → result ≡ place_of index (length k.children) }
{
    match cells.get(parent) {
        Some(cell) => place_of(index, cell.children.len()),
        None => 0,
    }
}

/// Makes room for one more child.
fn make_room(cells: &mut Slab<Cell>, parent: usize) -> Result<(), NoMemory>
    requires is_there { IsSome (look_in cells.old parent) }
    ensures room { OnOk result (RoomAt cells.new parent) }
    ensures same { (n : ℕ) → look_in cells.new n ≡ look_in cells.old n }
{
    match cells.get_mut(parent) {
        Some(cell) => match cell.children.reserve(1) {
            Ok(()) => Ok(()),
            Err(_) => Err(NoMemory),
        },
        None => unreachable!(),
    }
}

/// Takes a key out of the children of another.
pub(crate) fn unlink(cells: &mut Slab<Cell>, parent: usize, key: usize)
    ensures put { (k : Kept Row) → look_in cells.old parent ≡ Some k
        → look_in cells.new parent ≡ Some (without_child key k) }
    ensures none { look_in cells.old parent ≡ None → look_in cells.new parent ≡ None }
    ensures room { (n : ℕ) → RoomAt cells.old n → RoomAt cells.new n }
    ensures others { (n : ℕ) → n ≢ parent → look_in cells.new n ≡ look_in cells.old n }
{
    if let Some(cell) = cells.get_mut(parent) {
        cell.children.retain(
            |child: &usize| -> bool
                ensures { result ≡ not (child.now == key) }
            { *child != key },
        );
    }
}

/// Gives a cell another parent, and the place there.
pub(crate) fn set_parent(cells: &mut Slab<Cell>, key: usize, parent: usize, seat: usize)
    ensures none { look_in cells.old key ≡ None → look_in cells.new key ≡ None }
    ensures put { (k : Kept Row) → look_in cells.old key ≡ Some k
        → look_in cells.new key ≡ Some (record k { parent = Some parent }) }
    ensures room { (n : ℕ) → RoomAt cells.old n → RoomAt cells.new n }
    ensures others { (n : ℕ) → n ≢ key → look_in cells.new n ≡ look_in cells.old n }
{
    if let Some(cell) = cells.get_mut(key) {
        cell.parent = Some(parent);
        cell.seat = seat;
    }
}

/// Changes the row under a key.
pub(crate) fn change_row(cells: &mut Slab<Cell>, key: usize, with: Change)
    ensures put { (k : Kept Row) → look_in cells.old key ≡ Some k
        → look_in cells.new key ≡ Some (with_row (changed with) k) }
    ensures none { look_in cells.old key ≡ None → look_in cells.new key ≡ None }
    ensures others { (n : ℕ) → n ≢ key → look_in cells.new n ≡ look_in cells.old n }
{
    if let Some(cell) = cells.get_mut(key) {
        apply(&mut cell.row, with);
    }
}

/// The keys of a node and of all below it. No recursion: the list of keys is the list of what is still to be done.
pub(crate) fn subtree(alloc: Global, cells: &Slab<Cell>, key: usize) -> Result<Vec<usize>, NoMemory>
    requires held { (f : Forest (Node Row)) × Holds (look_in cells.now) f × (count (is_key key) f ≡ 1) }
    ensures { (f : Forest (Node Row)) → Holds (look_in cells.now) f → count (is_key key) f ≡ 1
        → IfOk result (λ keys. IsSubtree key f keys.items) }
{
    let mut keys = Vec::new(alloc);
    keys.push(key)?;
    let mut i = 0;
    while i < keys.len() {
        keys.extend_from_slice(cells[keys[i]].children.as_slice())?;
        i += 1;
    }
    Ok(keys)
}

/// Takes a row with all below it out of the children of one, and puts it among those of another.
pub(crate) fn relink(
    cells: &mut Slab<Cell>,
    key: usize,
    from: usize,
    to: usize,
    at: Option<usize>,
) -> Result<(), NoMemory>
    requires to_there { IsSome (look_in cells.old to) }
    requires apart { key ≢ to }
    ensures moved { (k : Kept Row) → look_in cells.old key ≡ Some k → key ≢ from
        → OnOk result (look_in cells.new key ≡ Some (record k { parent = Some to })) }
    ensures to { (k : Kept Row) → look_in cells.old to ≡ Some k
        → OnOk result (look_in cells.new to ≡ Some (with_child at key (without_child_if (to == from) key k))) }
    ensures from { (k : Kept Row) → look_in cells.old from ≡ Some k → from ≢ to → from ≢ key
        → OnOk result (look_in cells.new from ≡ Some (without_child key k)) }
    ensures others { (n : ℕ) → n ≢ key → n ≢ from → n ≢ to → look_in cells.new n ≡ look_in cells.old n }
    ensures none { look_in cells.old from ≡ None → look_in cells.new from ≡ None }
    ensures err { OnErr result ((n : ℕ) → look_in cells.new n ≡ look_in cells.old n) }
{
    make_room(cells, to)?;
    unlink(cells, from, key);
    let seat = seat_for(cells, to, at);
    match link(cells, to, at, key) {
        Ok(()) => {}
        Err(_) => unreachable!(),
    }
    set_parent(cells, key, to, seat);
    Ok(())
}
