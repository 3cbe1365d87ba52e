//! Reading bytes as a line of a script, one small reader a form.

ghost use Rattle.std.specs.Prelude.{◌≡◌, ◌↔◌, ◌∷◌, [], ℕ, List, Bool, true, codes, IsTrue, MatchOption};
ghost use Rattle.atspi_script_lines.specs.Forms.{way_word};
ghost use Rattle.atspi_script_lines.specs.Line.{IsBlank, ReadsLine, SpelledAs};
ghost use Rattle.atspi_script_lines.specs.inner.Reading.{Finds, IsLineOf, LeadAll, Reads, is_plain};
ghost use Rattle.atspi_script_lines.specs.Words.{Leads, SpellsWords, literal, place, app_name, reader_name};

use crate::deeds::read_deed;
use crate::edits::read_edit;
use crate::limits::LINE_LIMIT;
use crate::line::{Line, LineFault};
use crate::numbers::{next_place, next_quota};
use crate::parties::{next_app, next_party, next_reader};
use crate::shapes::{read_one, read_text};
use crate::words::{is_word, next_word, split_word};
use atspi_base::NoMemory;
use std::alloc::Global;

/// One application.
fn read_app_name(bytes: &[u8]) -> Option<u32>
    ensures { Finds (λ a. SpellsWords (app_name a ∷ []) bytes.now) result }
{
    let Some((app, rest)) = next_app(bytes) else {
        return None;
    };
    if !rest.is_empty() {
        return None;
    }
    Some(app)
}

/// One reader.
fn read_reader_name(bytes: &[u8]) -> Option<u32>
    ensures { Finds (λ r. SpellsWords (reader_name r ∷ []) bytes.now) result }
{
    let Some((reader, rest)) = next_reader(bytes) else {
        return None;
    };
    if !rest.is_empty() {
        return None;
    }
    Some(reader)
}

/// The quota of all connections.
fn read_quota(bytes: &[u8]) -> Option<Line>
    ensures { Finds (IsLineOf (codes "quota") bytes.now) result }
{
    let Some((n, rest)) = next_quota(bytes) else {
        return None;
    };
    if !rest.is_empty() {
        return None;
    }
    Some(Line::Quota(n))
}

/// An application starts.
fn read_app(alloc: Global, bytes: &[u8]) -> Result<Option<Line>, NoMemory>
    ensures { Reads (IsLineOf (codes "app") bytes.now) result }
{
    match read_text(alloc, bytes)? {
        Some(name) => Ok(Some(Line::App(name))),
        None => Ok(None),
    }
}

/// A reader starts.
fn read_reader(bytes: &[u8]) -> Option<Line>
    ensures { Finds (IsLineOf (codes "reader") bytes.now) result }
{
    if !bytes.is_empty() {
        return None;
    }
    Some(Line::Reader)
}

/// An application is edited.
fn read_edit_line(alloc: Global, bytes: &[u8]) -> Result<Option<Line>, NoMemory>
    ensures { Reads (IsLineOf (codes "edit") bytes.now) result }
{
    let Some((app, rest)) = next_app(bytes) else {
        return Ok(None);
    };
    match read_edit(alloc, rest)? {
        Some(edit) => Ok(Some(Line::Edit { app, edit })),
        None => Ok(None),
    }
}

/// The reader, the application and the node of a call, and what follows them.
fn next_call(bytes: &[u8]) -> Option<(u32, u32, u32, &[u8])>
    ensures { MatchOption result
        ((r a n : ℕ) (rest : List ℕ) → LeadAll (reader_name r ∷ app_name a ∷ place n ∷ []) rest bytes.now → ⊥)
        (λ r. LeadAll (reader_name r.0 ∷ app_name r.1 ∷ place r.2 ∷ []) r.3.now bytes.now) }
{
    let Some((reader, behind_reader)) = next_reader(bytes) else {
        return None;
    };
    let Some((app, behind_app)) = next_app(behind_reader) else {
        return None;
    };
    match next_place(behind_app) {
        Some((node, rest)) => Some((reader, app, node, rest)),
        None => None,
    }
}

/// A reader sends a call.
fn read_call(alloc: Global, bytes: &[u8]) -> Result<Option<Line>, NoMemory>
    ensures { Reads (IsLineOf (codes "call") bytes.now) result }
{
    let Some((reader, app, node, rest)) = next_call(bytes) else {
        return Ok(None);
    };
    match read_deed(alloc, rest)? {
        Some(deed) => Ok(Some(Line::Call {
            reader,
            app,
            node,
            deed,
        })),
        None => Ok(None),
    }
}

/// An application's texts go into the next spare face.
fn read_swap(bytes: &[u8]) -> Option<Line>
    ensures { Finds (IsLineOf (codes "swap") bytes.now) result }
{
    match read_app_name(bytes) {
        Some(app) => Some(Line::Swap(app)),
        None => None,
    }
}

/// An application stops.
fn read_exit(bytes: &[u8]) -> Option<Line>
    ensures { Finds (IsLineOf (codes "exit") bytes.now) result }
{
    match read_app_name(bytes) {
        Some(app) => Some(Line::Exit(app)),
        None => None,
    }
}

/// A reader stops.
fn read_leave(bytes: &[u8]) -> Option<Line>
    ensures { Finds (IsLineOf (codes "leave") bytes.now) result }
{
    match read_reader_name(bytes) {
        Some(reader) => Some(Line::Leave(reader)),
        None => None,
    }
}

/// A link's direction in front, and what follows it: whether it is the link to the bus.
fn next_way(bytes: &[u8]) -> Option<(bool, &[u8])>
    ensures { MatchOption result ((up : Bool) (rest : List ℕ) → Leads (literal (way_word up)) rest bytes.now → ⊥)
        (λ r. Leads (literal (way_word r.0)) r.1.now bytes.now) }
{
    let Some((word, rest)) = next_word(bytes) else {
        return None;
    };
    if word == b"up".as_slice() {
        return Some((true, rest));
    }
    if word == b"down".as_slice() {
        return Some((false, rest));
    }
    None
}

/// Bytes of a link are moved.
fn read_bytes(bytes: &[u8]) -> Option<Line>
    ensures { Finds (IsLineOf (codes "bytes") bytes.now) result }
{
    let Some((party, behind)) = next_party(bytes) else {
        return None;
    };
    let Some((up, rest)) = next_way(behind) else {
        return None;
    };
    match read_one(rest) {
        Some(count) => Some(Line::Bytes { party, up, count }),
        None => None,
    }
}

/// Turns.
fn read_turns(bytes: &[u8]) -> Option<Line>
    ensures { Finds (IsLineOf (codes "turns") bytes.now) result }
{
    match read_one(bytes) {
        Some(count) => Some(Line::Turns(count)),
        None => None,
    }
}

/// Turns until nothing waits.
fn read_drain(bytes: &[u8]) -> Option<Line>
    ensures { Finds (IsLineOf (codes "drain") bytes.now) result }
{
    if !bytes.is_empty() {
        return None;
    }
    Some(Line::Drain)
}

/// A reader shows its view.
fn read_show(bytes: &[u8]) -> Option<Line>
    ensures { Finds (IsLineOf (codes "show") bytes.now) result }
{
    let Some((reader, rest)) = next_reader(bytes) else {
        return None;
    };
    match read_app_name(rest) {
        Some(app) => Some(Line::Show { reader, app }),
        None => None,
    }
}

/// A line of one of the forms that have no text, by its first word.
fn read_plain(word: &[u8], bytes: &[u8]) -> Option<Line>
    ensures { Finds (λ line. (is_plain line ≡ true) × IsLineOf word.now bytes.now line) result }
{
    if is_word(word, b"turns") {
        return read_turns(bytes);
    }
    if is_word(word, b"bytes") {
        return read_bytes(bytes);
    }
    if is_word(word, b"drain") {
        return read_drain(bytes);
    }
    if is_word(word, b"show") {
        return read_show(bytes);
    }
    if is_word(word, b"reader") {
        return read_reader(bytes);
    }
    if is_word(word, b"quota") {
        return read_quota(bytes);
    }
    if is_word(word, b"swap") {
        return read_swap(bytes);
    }
    if is_word(word, b"exit") {
        return read_exit(bytes);
    }
    if is_word(word, b"leave") {
        return read_leave(bytes);
    }
    None
}

/// A line that has words, by its first word and what follows it.
fn read_line_of(alloc: Global, word: &[u8], bytes: &[u8]) -> Result<Option<Line>, NoMemory>
    ensures { Reads (IsLineOf word.now bytes.now) result }
{
    if is_word(word, b"edit") {
        return read_edit_line(alloc, bytes);
    }
    if is_word(word, b"call") {
        return read_call(alloc, bytes);
    }
    if is_word(word, b"app") {
        return read_app(alloc, bytes);
    }
    Ok(read_plain(word, bytes))
}

/// Whether the bytes are an empty line or a comment.
fn is_blank(bytes: &[u8]) -> bool
    ensures { IsTrue result ↔ IsBlank bytes.now }
{
    bytes.is_empty() || bytes[0] == b'#'
}

/// The line that the bytes spell, whatever their number.
fn read_form(alloc: Global, bytes: &[u8]) -> Result<Option<Line>, NoMemory>
    ensures { Reads (λ line. SpelledAs line bytes.now) result }
{
    if is_blank(bytes) {
        return Ok(Some(Line::Blank));
    }
    let (word, rest) = split_word(bytes);
    read_line_of(alloc, word, rest)
}

/// The line that the bytes spell. Refused for the first reason that holds: `Long` for more than 65,536 bytes, `NotUtf8`
/// for bytes that are not UTF-8, `Form` for bytes that spell no line.
pub fn parse_line(alloc: Global, bytes: &[u8]) -> Result<Line, LineFault>
    ensures { ReadsLine result bytes.now }
{
    if bytes.len() > LINE_LIMIT {
        return Err(LineFault::Long);
    }
    if std::str::from_utf8(bytes).is_err() {
        return Err(LineFault::NotUtf8);
    }
    match read_form(alloc, bytes) {
        Ok(Some(line)) => Ok(line),
        Ok(None) => Err(LineFault::Form),
        Err(_) => Err(LineFault::NoMemory),
    }
}
