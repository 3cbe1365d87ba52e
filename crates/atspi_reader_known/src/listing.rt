//! How what is wanted of an application is listed.

ghost use Rattle.std.specs.Prelude.{◌≡◌, ◌++◌, ◌∷◌, ◌&&◌, [], ℕ, List, true, cond, map, not, Some, IfOk, IsOkAnd, OnOk};
ghost use Rattle.atspi_cache_arena.specs.Sights.{Sight};
ghost use Rattle.atspi_tree_model.specs.Forest.{Forest};
ghost use Rattle.atspi_tree_model.specs.News as news;
ghost use Rattle.atspi_tree_model.specs.declared.view.Row.{Row};
ghost use Rattle.atspi_protocol.specs.following.Wishes.{is_refused};
ghost use Rattle.atspi_reader_known.specs.Kept.{kept, rows_of};
ghost use Rattle.atspi_reader_known.specs.Listed as listed;
ghost use Rattle.atspi_reader_known.specs.Listed.{or_others, IsListing, IsOnce};

use crate::app::HERE;
use crate::fresh::offers;
use crate::refused::Refused;
use crate::unknown::{is_unknown_number, is_unknown_text};
use crate::wants::Wants;
use atspi_base::NoMemory;
use atspi_base::valid_names::Path;
use atspi_cache::{Cache, Rows};
use atspi_protocol::news::PartName;
use atspi_tree_model::{Item, News, Row};
use std::alloc::Global;

/// Appends a part, where it is unknown and was not refused.
fn push_part(
    alloc: Global,
    refused: &Refused,
    path: &Path,
    part: PartName,
    unknown: bool,
    wants: &mut Vec<(Path, PartName)>,
) -> Result<(), NoMemory>
    ensures { OnOk result
        (wants.new.items
        ≡ wants.old.items
        ++ cond (unknown && not (is_refused refused.now path.now part)) ((path.now, part) ∷ []) []) }
{
    if unknown && !refused.has(path, part) {
        wants.push((path.copy(alloc)?, part))?;
    }
    Ok(())
}

/// Appends the unknown parts of a row that were not refused.
fn push_row(
    alloc: Global,
    refused: &Refused,
    row: &Row,
    wants: &mut Vec<(Path, PartName)>,
) -> Result<(), NoMemory>
    ensures { OnOk result (wants.new.items ≡ wants.old.items ++ listed.row_wants refused.now row.now) }
{
    let path = &row.path;
    push_part(
        alloc,
        refused,
        path,
        PartName::Text,
        is_unknown_text(&row.text),
        wants,
    )?;
    push_part(
        alloc,
        refused,
        path,
        PartName::Caret,
        is_unknown_number(row.caret),
        wants,
    )?;
    push_part(
        alloc,
        refused,
        path,
        PartName::Columns,
        is_unknown_number(row.columns),
        wants,
    )
}

/// The unknown parts of some rows that were not refused, in order.
fn all_wants(
    alloc: Global,
    rows: Rows,
    refused: &Refused,
) -> Result<Vec<(Path, PartName)>, NoMemory>
    ensures { IfOk result
        (λ wants. wants.items ≡ listed.all_wants refused.now (map (λ (s : Sight). s.row) rows.entry)) }
{
    let mut wants = Vec::new(alloc);
    let mut rest = rows;
    while let Some(seen) = rest.next() {
        push_row(alloc, refused, seen.row, &mut wants)?;
    }
    Ok(wants)
}

/// The parts of the row that an item of a new node makes: of such a row none was refused.
pub(crate) fn item_wants(alloc: Global, item: &Item) -> Result<Wants, NoMemory>
    ensures { IfOk result (λ wants. wants ≡ listed.row_wants [] (news.fresh item.now)) }
{
    let none = Refused::new(alloc);
    let path = &item.object.path;
    let interfaces = item.interfaces.as_slice();
    let has_text = offers("org.a11y.atspi.Text", interfaces);
    let has_table = offers("org.a11y.atspi.Table", interfaces);
    let mut wants = Vec::new(alloc);
    push_part(alloc, &none, path, PartName::Text, has_text, &mut wants)?;
    push_part(alloc, &none, path, PartName::Caret, has_text, &mut wants)?;
    push_part(alloc, &none, path, PartName::Columns, has_table, &mut wants)?;
    Ok(Wants::of(wants))
}

/// Puts in place what was listed, if it was, and says whether it was.
fn put_listed(wants: &mut Wants, listed: Result<Vec<(Path, PartName)>, NoMemory>) -> bool
    ensures { result ≡ true → IsOkAnd listed (λ items. wants.new ≡ items.items) }
{
    match listed {
        Ok(items) => {
            *wants = Wants::of(items);
            true
        }
        Err(_) => false,
    }
}

/// Puts the parts of an added node in place, if there are any and memory was not wanting for them, and says whether it
/// was not.
pub(crate) fn put_fresh(wants: &mut Wants, fresh: Result<Wants, NoMemory>) -> bool
    ensures { result ≡ true → IsOkAnd fresh (λ others. wants.new ≡ or_others others wants.old) }
{
    match fresh {
        Ok(others) => {
            wants.put(others);
            true
        }
        Err(_) => false,
    }
}

/// Lists anew what is wanted of an application with this view, and says whether that was done: it is not where all of
/// the application is wanted, nor for want of memory. It walks over all rows.
pub(crate) fn relist(
    alloc: Global,
    cache: &Cache,
    reload: bool,
    refused: &Refused,
    wants: &mut Wants,
) -> bool
    ensures { result ≡ true → IsOnce (kept cache.now) → (name root : List ℕ) (last : ℕ)
        → IsListing wants.new
        (record {
          name = name;
          root = root;
          view = rows_of (kept cache.now);
          reload = reload;
          last = last;
          refused = refused.now;
        }) }
{
    if reload {
        return false;
    }
    match cache.rows(HERE) {
        Some(rows) => put_listed(wants, all_wants(alloc, rows, refused)),
        None => false,
    }
}

/// Whether a list of what is wanted can follow a news, given the view before it.
pub(crate) fn follows(cache: &Cache, wants: &Wants, news: &News) -> bool
    ensures { (view : Forest Row) → rows_of (kept cache.now) ≡ Some view
        → result ≡ listed.follows wants.now view news.now }
{
    match news {
        News::ChildAdded(child) => cache.find(HERE, child).is_some(),
        News::Item(_) => wants.is_empty(),
        News::Removed(_) => wants.is_empty(),
        News::ChildRemoved { .. } => wants.is_empty(),
        News::TextIs(_, _) => wants.is_empty(),
        News::CaretIs(_, _) => wants.is_empty(),
        News::ColumnsIs(_, _) => wants.is_empty(),
        _ => true,
    }
}

/// Whether a number is a count: what is below zero tells nothing.
fn is_count(number: i32) -> bool
    ensures { result ≡ listed.is_count number }
{
    number >= 0
}

/// Whether a news tells the first part that is wanted.
pub(crate) fn tells_first(wants: &Wants, news: &News) -> bool
    ensures { result ≡ listed.tells_first wants.now news.now }
{
    match news {
        News::TextIs(path, _) => wants.begins_with(path, PartName::Text),
        News::CaretIs(path, at) => is_count(*at) && wants.begins_with(path, PartName::Caret),
        News::ColumnsIs(path, count) => {
            is_count(*count) && wants.begins_with(path, PartName::Columns)
        }
        _ => false,
    }
}
