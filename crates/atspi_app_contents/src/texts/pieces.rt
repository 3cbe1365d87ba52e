//! The piece of a text that holds a character, with what stands around it.

ghost use Rattle.std.specs.Prelude.{◌≡◌, ◌∷◌, [], ◌<◌, ◌≤◌, length, IfOk, IfSome, IsSome, None};
ghost use Rattle.atspi_types.specs.Data.{text_data};
ghost use Rattle.atspi_types.specs.DataView.{all_data};
ghost use Rattle.atspi_protocol.specs.objects.Texts as texts_of;
ghost use Rattle.atspi_protocol.specs.objects.Values.{count_data};
ghost use Rattle.atspi_units.specs.Units.{units, IsUnitAt};
ghost use Rattle.atspi_app_contents.specs.texts.Texts.{KeepsText, text_at};
ghost use Rattle.atspi_app_contents.specs.texts.inner.Places.{place_in};

use crate::texts::values::{count, empty};
use atspi_base::{NoMemory, Text};
use atspi_faces::face::Face;
use atspi_types::{Value, Values};
use atspi_units::{Grain, Reaches, unit_within};
use std::alloc::Global;

/// So many characters are looked at first, on each side of a place.
const REACH: u32 = 64;

/// The ends of the piece of a node's text that holds a character, read from so many characters on each side of it. None
/// where these do not show them.
fn piece_near<C: Face>(
    texts: &C,
    node: u32,
    unit: Grain,
    at: u32,
    count: u32,
    reach: u32,
) -> Result<Option<(u32, u32)>, NoMemory>
    requires kept { KeepsText (C.of_kind texts.now) (C.nodes texts.now) node }
    requires count { count ≡ length (text_at (C.nodes texts.now) node).characters }
    requires within { at < count }
    requires reach { 0 < reach }
    ensures held { IfOk result (λ ends. IfSome ends
        (λ (start, end). IsUnitAt (units unit (text_at (C.nodes texts.now) node).characters) at start end)) }
    ensures told { count ≤ reach → IfOk result (λ ends. IsSome ends) }
{
    let _ = texts.kind();
    let from = at.saturating_sub(reach);
    let to = count.min(at.saturating_add(reach));
    let window = texts.part(node, from, to)?;
    let reaches = Reaches {
        start: from == 0,
        end: to == count,
    };
    match unit_within(unit, window.as_str(), reaches, at - from) {
        Some((start, end)) => Ok(Some((from + start, from + end))),
        None => Ok(None),
    }
}

/// The ends of the piece of a node's text that holds a character. More and more of what stands around it is looked at
/// until that shows them, so it costs the piece and what surely ends around it, and not the text.
fn piece_ends<C: Face>(
    texts: &C,
    node: u32,
    unit: Grain,
    at: u32,
    count: u32,
) -> Result<(u32, u32), NoMemory>
    requires kept { KeepsText (C.of_kind texts.now) (C.nodes texts.now) node }
    requires count { count ≡ length (text_at (C.nodes texts.now) node).characters }
    requires within { at < count }
    ensures { IfOk result
        (λ (start, end). IsUnitAt (units unit (text_at (C.nodes texts.now) node).characters) at start end) }
{
    let mut reach = REACH;
    while reach < count {
        if let Some(ends) = piece_near(texts, node, unit, at, count, reach)? {
            return Ok(ends);
        }
        reach = reach.saturating_mul(4);
    }
    match piece_near(texts, node, unit, at, count, reach)? {
        Some(ends) => Ok(ends),
        None => unreachable!(),
    }
}

/// A text and two counts.
fn three(alloc: Global, text: Text, start: u32, end: u32) -> Result<Values, NoMemory>
    requires start { start ≤ 2147483647 }
    requires end { end ≤ 2147483647 }
    ensures { IfOk result
        (λ values. all_data values ≡ text_data text ∷ count_data start ∷ count_data end ∷ []) }
{
    let mut values = Values::new(alloc);
    values.push(Value::Text(text))?;
    values.push(count(start))?;
    values.push(count(end))?;
    Ok(values)
}

/// No characters, and -1 twice.
fn none(alloc: Global) -> Result<Values, NoMemory>
    ensures { IfOk result (λ values. all_data values ≡ texts_of.piece_data None) }
{
    let text = empty(alloc)?;
    let mut values = Values::new(alloc);
    values.push(Value::Text(text))?;
    values.push(Value::I32(-1))?;
    values.push(Value::I32(-1))?;
    Ok(values)
}

/// The place of a character, from outside; None where a text of so many characters has none there.
fn place_in(place: i32, count: u32) -> Option<u32>
    ensures { result ≡ place_in place count }
{
    if place < 0 || count <= place as u32 {
        return None;
    }
    Some(place as u32)
}

/// The piece of a node's text that holds the character at a place: its characters, where it starts and where the next
/// one does. No characters, and -1 twice, where there is no such character, or it is not said which pieces are meant.
/// The one refusal is want of memory.
pub fn piece<C: Face>(
    alloc: Global,
    texts: &C,
    node: u32,
    unit: Option<Grain>,
    place: i32,
) -> Result<Values, NoMemory>
    requires { KeepsText (C.of_kind texts.now) (C.nodes texts.now) node }
    ensures { IfOk result
        (λ values. all_data values
        ≡ texts_of.piece_data (texts_of.piece_there unit (text_at (C.nodes texts.now) node).characters place)) }
{
    let _ = texts.kind();
    let count = texts.count(node);
    let Some(unit) = unit else {
        return none(alloc);
    };
    let Some(at) = place_in(place, count) else {
        return none(alloc);
    };
    let (start, end) = piece_ends(texts, node, unit, at, count)?;
    let text = texts.part(node, start, end)?;
    three(alloc, text, start, end)
}
