//! The lines of a news, and the line of an application that is gone.

ghost use Rattle.std.specs.Prelude.{◌≡◌, [], ◌∷◌, ◌++◌, OnOk, OnErr, IfOk};
ghost use Rattle.std.specs.Option.{option_copied};
ghost use Rattle.atspi_tree_model.specs.Forest.{Forest};
ghost use Rattle.atspi_tree_model.specs.declared.view.Row.{Row};
ghost use Rattle.atspi_speech.specs.Looked.{AreLookedUp};
ghost use Rattle.atspi_speech.specs.Speech.{closing_of, lines};

use crate::added::item_came;
use crate::focus::{renamed, state_changed, text_changed};
use crate::line::Line;
use atspi_base::valid_names::Path;
use atspi_base::{NoMemory, Text, Texts};
use atspi_tree_model::{News, Row};
use std::alloc::Global;

/// Appends the lines that are spoken at a news of an application that is held, read from the view that the news will
/// make.
///
/// `root` is the path of the application's root and `bus` its bus name. `row` is the row of the news' own path in the
/// view before the news (of an item, its object's), and `has_parent` says whether that view has a row of an item's
/// parent's path. Of other news neither is looked at. After want of memory `out` is as before.
pub fn lines(
    alloc: Global,
    root: &Path,
    bus: &Text,
    row: Option<&Row>,
    has_parent: bool,
    news: &News,
    out: &mut Texts,
) -> Result<(), NoMemory>
    ensures ok { (v : Forest Row) → AreLookedUp v news.now (option_copied row.entry) has_parent
        → OnOk result (out.new ≡ out.old ++ lines root.now bus.now v news.now) }
    ensures err { OnErr result (out.new ≡ out.old) }
{
    match news {
        News::Item(item) => item_came(alloc, root, bus, row, has_parent, item, out),
        News::Name(_, name) => match row {
            Some(row) => renamed(alloc, row, name, out),
            None => Ok(()),
        },
        News::State(_, state, on) => match row {
            Some(row) => state_changed(alloc, row, *state, *on, out),
            None => Ok(()),
        },
        News::Inserted { text, .. } => match row {
            Some(row) => text_changed(alloc, row, "typed: ", text, out),
            None => Ok(()),
        },
        News::Deleted { text, .. } => match row {
            Some(row) => text_changed(alloc, row, "deleted: ", text, out),
            None => Ok(()),
        },
        News::Removed(_)
        | News::ChildAdded(_)
        | News::ChildRemoved { .. }
        | News::Description(..)
        | News::Role(..)
        | News::Caret(..)
        | News::TextIs(..)
        | News::CaretIs(..)
        | News::ColumnsIs(..)
        | News::Nothing => Ok(()),
    }
}

/// The line that is spoken when an application that was held is gone, from its root's name; a view without a root
/// counts as one whose root has an empty name.
pub fn closing_line(alloc: Global, name: Option<&Text>) -> Result<Text, NoMemory>
    ensures { IfOk result (λ line. closing_of (option_copied name.entry) ≡ line ∷ []) }
{
    let mut line = Line::new(alloc);
    if let Some(name) = name {
        line.push(name)?;
    }
    line.push_word(", closed")?;
    line.into_text(alloc)
}
