//! What an item says of a row.

ghost use Rattle.std.specs.Prelude.{◌≡◌, ◌∷◌, ℕ, List, bytes_eq, codes, true, IfOk};
ghost use Rattle.atspi_tree_model.specs.News.{fresh, kinds_of, offers, unknown_number_if, unknown_text_if};
ghost use Rattle.atspi_tree_model.specs.View.{kinds_number};
ghost use Rattle.atspi_cache.specs.inner.Plain.{is_plain};

use atspi_base::valid_names::Path;
use atspi_base::{NoMemory, Text, Texts};
use atspi_cache_arena::Change;
use atspi_tree_model::{Item, Kinds, NumPart, Part, Row};
use std::alloc::Global;

/// Whether a text has just these characters of ASCII.
fn is_word(text: &Text, word: &str) -> bool
    requires plain { is_plain word.now ≡ true }
    ensures { result ≡ bytes_eq text.now word.now }
{
    text.as_str() == word
}

/// Whether a list of interfaces has this one.
fn offers(word: &str, interfaces: &[Text]) -> bool
    requires plain { is_plain word.now ≡ true }
    ensures { result ≡ offers word.now interfaces.now }
{
    for interface in interfaces {
        if is_word(interface, word) {
            return true;
        }
    }
    false
}

/// The kinds that a list of interfaces names.
fn kinds_of(interfaces: &[Text]) -> Kinds
    ensures { result ≡ kinds_of interfaces.now }
{
    Kinds {
        text: offers("org.a11y.atspi.Text", interfaces),
        editable: offers("org.a11y.atspi.EditableText", interfaces),
        selection: offers("org.a11y.atspi.Selection", interfaces),
        table: offers("org.a11y.atspi.Table", interfaces),
        action: offers("org.a11y.atspi.Action", interfaces),
    }
}

/// The interfaces as bits: bit 0 Text, 1 EditableText, 2 Selection, 3 Table, 4 Action.
fn bits(kinds: Kinds) -> u8
    ensures { result ≡ kinds_number kinds }
{
    u8::from(kinds.text)
        + 2 * u8::from(kinds.editable)
        + 4 * u8::from(kinds.selection)
        + 8 * u8::from(kinds.table)
        + 16 * u8::from(kinds.action)
}

/// A text that is there, but not known.
fn unknown_text_if(there: bool) -> Part
    ensures { result ≡ unknown_text_if there }
{
    if there { Part::Unknown } else { Part::Absent }
}

/// A number that is there, but not known.
fn unknown_number_if(there: bool) -> NumPart
    ensures { result ≡ unknown_number_if there }
{
    if there {
        NumPart::Unknown
    } else {
        NumPart::Absent
    }
}

/// The path of an item, and the change that it makes of a row that is known.
pub(crate) fn renewal(item: Item) -> (Path, Change)
    ensures path { result.0 ≡ item.object.path }
    ensures change { result.1
        ≡ Change.Renewed item.name item.description item.role item.states (kinds_number (kinds_of item.interfaces)) }
{
    let Item {
        object,
        interfaces,
        name,
        role,
        description,
        states,
        ..
    } = item;
    let faces = bits(kinds_of(interfaces.as_slice()));
    (
        object.path,
        Change::Renewed {
            name,
            description,
            role,
            states,
            faces,
        },
    )
}

/// The parent's path of an item, its index, and the row of a node that was not known.
pub(crate) fn fresh(item: Item) -> (Path, i32, Row)
    ensures parent { result.0 ≡ item.parent.path }
    ensures index { result.1 ≡ item.index }
    ensures row { result.2 ≡ fresh item }
{
    let Item {
        object,
        parent,
        index,
        interfaces,
        name,
        role,
        description,
        states,
        ..
    } = item;
    let kinds = kinds_of(interfaces.as_slice());
    (
        parent.path,
        index,
        Row {
            path: object.path,
            name,
            description,
            role,
            states,
            faces: bits(kinds),
            text: unknown_text_if(kinds.text),
            caret: unknown_number_if(kinds.text),
            columns: unknown_number_if(kinds.table),
        },
    )
}

/// The row of a node that was not known.
pub(crate) fn row_of(alloc: Global, item: &Item) -> Result<Row, NoMemory>
    ensures { IfOk result (λ row. row ≡ fresh item.now) }
{
    let kinds = kinds_of(item.interfaces.as_slice());
    let path = item.object.path.copy(alloc)?;
    let name = item.name.copy(alloc)?;
    let description = item.description.copy(alloc)?;
    Ok(Row {
        path,
        name,
        description,
        role: item.role,
        states: item.states,
        faces: bits(kinds),
        text: unknown_text_if(kinds.text),
        caret: unknown_number_if(kinds.text),
        columns: unknown_number_if(kinds.table),
    })
}
