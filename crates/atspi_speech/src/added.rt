//! The lines of an item that adds a node.

ghost use Rattle.std.specs.Prelude.{◌≡◌, [], ◌∷◌, ◌++◌, cond, bytes_eq, OnOk, OnErr};
ghost use Rattle.std.specs.Option.{option_copied};
ghost use Rattle.atspi_tree_model.specs.News.{fresh};
ghost use Rattle.atspi_speech.specs.Looked.{adds};
ghost use Rattle.atspi_speech.specs.Speech.{alert_lines, of_row};

use crate::line::Line;
use atspi_base::valid_names::Path;
use atspi_base::{NoMemory, Text, Texts};
use atspi_tree_model::{Item, Row};
use std::alloc::Global;

const ALERT: u32 = 2;

const NOTIFICATION: u32 = 101;

/// Whether two texts are the same, as a test that computes.
fn is_text(text: &Text, other: &Text) -> bool
    ensures { result ≡ bytes_eq text.now other.now }
{
    text.is(other)
}

/// Whether two paths are the same, as a test that computes.
fn is_path(path: &Path, other: &Path) -> bool
    ensures { result ≡ bytes_eq path.now other.now }
{
    path.is(other)
}

/// Whether an item adds a node: it is the application's own, not of the root nor of a node that is known, and its
/// parent is known.
fn adds(root: &Path, bus: &Text, row: Option<&Row>, has_parent: bool, item: &Item) -> bool
    ensures { result ≡ adds root.now bus.now (option_copied row.entry) has_parent item.now }
{
    if !is_text(&item.object.bus, bus) || is_path(&item.object.path, root) {
        return false;
    }
    if row.is_some() || !is_text(&item.parent.bus, bus) {
        return false;
    }
    has_parent
}

/// Appends the line of a new node, if it is an alert.
fn push_alert(alloc: Global, item: &Item, out: &mut Texts) -> Result<(), NoMemory>
    ensures ok { OnOk result (out.new ≡ out.old ++ alert_lines (of_row (fresh item.now))) }
    ensures err { OnErr result (out.new ≡ out.old) }
{
    if item.role != ALERT && item.role != NOTIFICATION {
        return Ok(());
    }
    let mut line = Line::new(alloc);
    line.push_word("alert: ")?;
    line.push(&item.name)?;
    out.push(line.into_text(alloc)?)
}

/// Appends the lines of an item.
pub(crate) fn item_came(
    alloc: Global,
    root: &Path,
    bus: &Text,
    row: Option<&Row>,
    has_parent: bool,
    item: &Item,
    out: &mut Texts,
) -> Result<(), NoMemory>
    ensures ok { OnOk result
        (out.new
        ≡ out.old
        ++ cond (adds root.now bus.now (option_copied row.entry) has_parent item.now)
        (alert_lines (of_row (fresh item.now))) []) }
    ensures err { OnErr result (out.new ≡ out.old) }
{
    if adds(root, bus, row, has_parent, item) {
        push_alert(alloc, item, out)
    } else {
        Ok(())
    }
}
