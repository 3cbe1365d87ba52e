//! What a news makes of the rows of an application.

ghost use Rattle.std.specs.Prelude.{◌≡◌, bytes_eq, cond, false, true, IfOk, OnOk, OnErr};
ghost use Rattle.atspi_tree_model.specs.Forest.{change, has, take_out};
ghost use Rattle.atspi_tree_model.specs.Row.{delete_there, insert_there};
ghost use Rattle.atspi_tree_model.specs.News.{added, effect, is_path, is_seat_at, item_effect, known_text_with};
ghost use Rattle.atspi_tree_model.specs.News.{marks_reload, moved, names, renewed, seat_in};
ghost use Rattle.atspi_cache_arena.specs.Change.{changed};

use crate::edits::{delete_there, insert_there};
use crate::item::{fresh, renewal};
use atspi_base::valid_names::Path;
use atspi_base::{NoMemory, Text};
use atspi_cache_arena::{Arena, Change, spot};
use atspi_tree_model::{Item, News, Part};
use std::alloc::Global;

/// Whether two texts are the same, as a test that computes.
fn is_text(text: &Text, other: &Text) -> bool
    ensures { result ≡ bytes_eq text.now other.now }
{
    text.is(other)
}

/// Whether two paths are the same, as a test that computes.
fn is_same(path: &Path, other: &Path) -> bool
    ensures { result ≡ bytes_eq path.now other.now }
{
    path.is(other)
}

/// Whether there is a row of a path.
fn has(rows: &Arena, path: &Path) -> bool
    ensures { result ≡ has (is_path path.now) rows.now }
{
    rows.find(path).is_some()
}

/// Moves a row that is known to where its item says, and answers whether that is known without it, so that the row is
/// to be renewed. All memory is taken first.
fn move_there(rows: &mut Arena, bus: &Text, item: &Item) -> Result<bool, NoMemory>
    requires there { has (is_path item.now.object.path) rows.old ≡ true }
    ensures ok { IfOk result
        (λ known. cond known (change (is_path item.now.object.path) (renewed item.now) rows.new) rows.new
        ≡ moved (is_path item.now.object.path) (names bus.now item.now.parent) item.now rows.old) }
    ensures err { OnErr result (rows.new ≡ rows.old) }
{
    if !is_text(&item.parent.bus, bus) {
        return Ok(false);
    }
    if !rows.is_outside(&item.parent.path, &item.object.path)? {
        return Ok(false);
    }
    rows.move_to(&item.object.path, &item.parent.path, spot(item.index))?;
    Ok(true)
}

/// Renews the row of an item.
fn renew(rows: &mut Arena, item: Item)
    ensures { rows.new ≡ change (is_path item.object.path) (renewed item) rows.old }
{
    let (path, with) = renewal(item);
    rows.change(&path, with);
}

/// Renews the row of the root, whose item this is.
fn renew_root(rows: &mut Arena, root: &Path, item: Item)
    ensures { rows.new ≡ change (is_path root.now) (renewed item) rows.old }
{
    let (_, with) = renewal(item);
    rows.change(root, with);
}

/// Moves a row that is known to where its item says, if that is known without it, and renews it. All memory is taken
/// first.
fn move_item(rows: &mut Arena, bus: &Text, item: Item) -> Result<(), NoMemory>
    requires there { has (is_path item.object.path) rows.old ≡ true }
    ensures ok { OnOk result (rows.new ≡ moved (is_path item.object.path) (names bus.now item.parent) item rows.old) }
    ensures err { OnErr result (rows.new ≡ rows.old) }
{
    match move_there(rows, bus, &item) {
        Ok(true) => {
            renew(rows, item);
            Ok(())
        }
        Ok(false) => {
            drop(item);
            Ok(())
        }
        Err(NoMemory) => {
            drop(item);
            Err(NoMemory)
        }
    }
}

/// Adds the row of an item where it says, if that is known.
fn add_item(rows: &mut Arena, bus: &Text, item: Item) -> Result<(), NoMemory>
    requires new { has (is_path item.object.path) rows.old ≡ false }
    ensures ok { OnOk result (rows.new ≡ added (names bus.now item.parent) item rows.old) }
    ensures err { OnErr result (rows.new ≡ rows.old) }
{
    if !is_text(&item.parent.bus, bus) {
        drop(item);
        return Ok(());
    }
    let (parent, index, row) = fresh(item);
    rows.insert(&parent, spot(index), row)
}

/// Takes an item: one of another application says nothing, and that of the root renews its row.
fn take_item(rows: &mut Arena, root: &Path, bus: &Text, item: Item) -> Result<(), NoMemory>
    ensures ok { OnOk result (rows.new ≡ item_effect root.now bus.now item rows.old) }
    ensures err { OnErr result (rows.new ≡ rows.old) }
{
    if !is_text(&item.object.bus, bus) {
        drop(item);
        return Ok(());
    }
    if is_same(&item.object.path, root) {
        renew_root(rows, root, item);
        return Ok(());
    }
    if has(rows, &item.object.path) {
        move_item(rows, bus, item)
    } else {
        add_item(rows, bus, item)
    }
}

/// Drops a row and all below it, but never the root.
fn remove(rows: &mut Arena, root: &Path, path: &Path) -> Result<(), NoMemory>
    ensures ok { OnOk result
        (rows.new ≡ cond (bytes_eq path.now root.now) rows.old (take_out (is_path path.now) rows.old)) }
    ensures err { OnErr result (rows.new ≡ rows.old) }
{
    if is_same(path, root) {
        return Ok(());
    }
    rows.remove(path)
}

/// Drops a child and all below it where it stands at this index of this parent.
fn remove_child(rows: &mut Arena, parent: &Path, index: i32, child: &Path) -> Result<(), NoMemory>
    ensures ok { OnOk result
        (rows.new
        ≡ cond (is_seat_at parent.now index (seat_in child.now rows.old)) (take_out (is_path child.now) rows.old)
        rows.old) }
    ensures err { OnErr result (rows.new ≡ rows.old) }
{
    if rows.stands_at(child, parent, index) {
        return rows.remove(child);
    }
    Ok(())
}

/// Puts a text into that of a row, where it is known and the place is in it.
fn insert(
    alloc: Global,
    rows: &mut Arena,
    path: &Path,
    at: i32,
    text: &Text,
) -> Result<(), NoMemory>
    ensures ok { OnOk result
        (rows.new
        ≡ change (is_path path.now)
        (λ row. record row { text = known_text_with (insert_there at text.now) row.text }) rows.old) }
    ensures err { OnErr result (rows.new ≡ rows.old) }
{
    let Some(row) = rows.find(path) else {
        return Ok(());
    };
    let Part::Known(old) = &row.text else {
        return Ok(());
    };
    let new = insert_there(alloc, old, at, text)?;
    rows.change(path, Change::Text(Part::Known(new)));
    Ok(())
}

/// Takes characters out of the text of a row, where it is known and they are in it.
fn delete(alloc: Global, rows: &mut Arena, path: &Path, at: i32, len: i32) -> Result<(), NoMemory>
    ensures ok { OnOk result
        (rows.new
        ≡ change (is_path path.now) (λ row. record row { text = known_text_with (delete_there at len) row.text })
        rows.old) }
    ensures err { OnErr result (rows.new ≡ rows.old) }
{
    let Some(row) = rows.find(path) else {
        return Ok(());
    };
    let Part::Known(old) = &row.text else {
        return Ok(());
    };
    let new = delete_there(alloc, old, at, len)?;
    rows.change(path, Change::Text(Part::Known(new)));
    Ok(())
}

/// Changes a row, which needs no memory.
fn put(rows: &mut Arena, path: &Path, with: Change) -> Result<(), NoMemory>
    ensures ok { OnOk result (rows.new ≡ change (is_path path.now) (changed with) rows.old) }
    ensures err { OnErr result (rows.new ≡ rows.old) }
{
    rows.change(path, with);
    Ok(())
}

/// Whether a news asks for the whole list of items again: the addition of a child that is not known.
pub fn marks_reload(rows: &Arena, news: &News) -> bool
    ensures { result ≡ marks_reload rows.now news.now }
{
    match news {
        News::ChildAdded(child) => !has(rows, child),
        _ => false,
    }
}

/// Takes a news of an application with this root and this bus name. All memory is taken before the first change: after
/// want of it the rows are as before.
pub fn fold(
    alloc: Global,
    rows: &mut Arena,
    root: &Path,
    bus: &Text,
    news: News,
) -> Result<(), NoMemory>
    ensures ok { OnOk result (rows.new ≡ effect root.now bus.now rows.old news) }
    ensures err { OnErr result (rows.new ≡ rows.old) }
{
    match news {
        News::Item(item) => take_item(rows, root, bus, item),
        News::Removed(path) => remove(rows, root, &path),
        News::ChildAdded(child) => {
            drop(child);
            Ok(())
        }
        News::ChildRemoved {
            parent,
            index,
            child,
        } => remove_child(rows, &parent, index, &child),
        News::Name(path, name) => put(rows, &path, Change::Name(name)),
        News::Description(path, text) => put(rows, &path, Change::Description(text)),
        News::Role(path, role) => put(rows, &path, Change::Role(role)),
        News::State(path, state, on) => put(rows, &path, Change::State(state, on)),
        News::Inserted { path, at, text } => insert(alloc, rows, &path, at, &text),
        News::Deleted {
            path,
            at,
            len,
            text,
        } => {
            drop(text);
            delete(alloc, rows, &path, at, len)
        }
        News::Caret(path, at) => put(rows, &path, Change::Caret(at)),
        News::TextIs(path, text) => put(rows, &path, Change::TextIs(text)),
        News::CaretIs(path, at) => put(rows, &path, Change::CaretIs(at)),
        News::ColumnsIs(path, count) => put(rows, &path, Change::ColumnsIs(count)),
        News::Nothing => Ok(()),
    }
}
