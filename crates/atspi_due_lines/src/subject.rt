//! A node as it is spoken of, and the lines of it.

ghost use Rattle.std.specs.Prelude.{◌≡◌, ◌++◌, true, IfOk, OnOk};
ghost use Rattle.std.specs.Option.{option_map, option_to_list};
ghost use Rattle.atspi_speech.specs.Speech.{alert_lines, focus_line, name_lines, state_lines, text_lines};
ghost use Rattle.atspi_speech.specs.Speech.{told_of_text};
ghost use Rattle.atspi_speech.specs.Words.{is_plain, spoken_role};
ghost use Rattle.atspi_due_lines.specs.inner.Subjects.{shape_at, subject_of};

use crate::line::Line;
use crate::states::{FOCUSED, is_set, push_states, word_of_state};
use atspi_base::{NoMemory, Text};
use atspi_tables::role_name;
use atspi_tree::Tree;
use std::alloc::Global;

const ALERT: u32 = 2;

const NOTIFICATION: u32 = 101;

const PASSWORD_TEXT: u32 = 40;

/// What is spoken of a node is read from these.
#[derive(Drop)]
pub(crate) struct Subject<'t> {
    pub name: &'t Text,
    pub role: u32,
    pub states: u64,
}

/// A node of a tree, if it is there.
pub(crate) fn spoken_of(tree: &Tree, node: u32) -> Option<Subject<'_>>
    ensures { option_map subject_of result ≡ shape_at node tree.now }
{
    if !tree.has(node) {
        return None;
    }
    Some(Subject {
        name: tree.name(node),
        role: tree.role(node),
        states: tree.states(node),
    })
}

/// Appends the spoken name of a role.
fn push_role(line: &mut Line, role: u32) -> Result<(), NoMemory>
    ensures { OnOk result (line.new ≡ line.old ++ spoken_role role) }
{
    line.push_word(role_name(role))
}

/// The line of a node that gets the focus.
fn focus_line(alloc: Global, node: &Subject) -> Result<Text, NoMemory>
    ensures { IfOk result (λ line. line ≡ focus_line (subject_of node.now)) }
{
    let mut line = Line::new(alloc);
    if node.name.count() != 0 {
        line.push(node.name)?;
        line.push_word(", ")?;
    }
    push_role(&mut line, node.role)?;
    push_states(&mut line, node.states)?;
    line.into_text(alloc)
}

/// The line of one word.
fn word_line(alloc: Global, word: &str) -> Result<Text, NoMemory>
    requires plain { is_plain word.now ≡ true }
    ensures { IfOk result (λ line. line ≡ word.now) }
{
    let mut line = Line::new(alloc);
    line.push_word(word)?;
    line.into_text(alloc)
}

/// What is due at a state that was set or cleared.
pub(crate) fn of_state(
    alloc: Global,
    node: &Subject,
    state: u8,
    on: bool,
) -> Result<Option<Text>, NoMemory>
    ensures { IfOk result (λ line. option_to_list line ≡ state_lines state on (subject_of node.now)) }
{
    if state == FOCUSED {
        if !on {
            return Ok(None);
        }
        return Ok(Some(focus_line(alloc, node)?));
    }
    if !is_set(node.states, FOCUSED) {
        return Ok(None);
    }
    match word_of_state(state, on) {
        Some(word) => Ok(Some(word_line(alloc, word)?)),
        None => Ok(None),
    }
}

/// What is due at a new name.
pub(crate) fn of_name(alloc: Global, node: &Subject) -> Result<Option<Text>, NoMemory>
    ensures { IfOk result (λ line. option_to_list line ≡ name_lines (subject_of node.now)) }
{
    if !is_set(node.states, FOCUSED) || node.name.count() == 0 {
        return Ok(None);
    }
    Ok(Some(node.name.copy(alloc)?))
}

/// Appends a text, or how long it is where it is a secret.
fn push_told(alloc: Global, line: &mut Line, role: u32, text: &Text) -> Result<(), NoMemory>
    ensures { OnOk result (line.new ≡ line.old ++ told_of_text role text.now) }
{
    if role != PASSWORD_TEXT {
        return line.push(text);
    }
    let count = text.count().to_string(alloc)?;
    line.push_word(count.as_str())?;
    line.push_word(" characters")
}

/// What is due at a text that was put in or taken out, behind a word that says which.
pub(crate) fn of_text(
    alloc: Global,
    node: &Subject,
    word: &str,
    text: &Text,
) -> Result<Option<Text>, NoMemory>
    requires plain { is_plain word.now ≡ true }
    ensures { IfOk result (λ line. option_to_list line ≡ text_lines word.now text.now (subject_of node.now)) }
{
    if !is_set(node.states, FOCUSED) {
        return Ok(None);
    }
    let mut line = Line::new(alloc);
    line.push_word(word)?;
    push_told(alloc, &mut line, node.role, text)?;
    Ok(Some(line.into_text(alloc)?))
}

/// What is due at a new node.
pub(crate) fn of_alert(alloc: Global, node: &Subject) -> Result<Option<Text>, NoMemory>
    ensures { IfOk result (λ line. option_to_list line ≡ alert_lines (subject_of node.now)) }
{
    if node.role != ALERT && node.role != NOTIFICATION {
        return Ok(None);
    }
    let mut line = Line::new(alloc);
    line.push_word("alert: ")?;
    line.push(node.name)?;
    Ok(Some(line.into_text(alloc)?))
}
