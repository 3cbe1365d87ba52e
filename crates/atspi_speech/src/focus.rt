//! The lines about the node that has the focus.

ghost use Rattle.std.specs.Prelude.{◌≡◌, ℕ, [], ◌∷◌, ◌++◌, true, OnOk, OnErr, IfOk};
ghost use Rattle.atspi_speech.specs.Looked.{with_name, with_state_of};
ghost use Rattle.atspi_speech.specs.Speech.{focus_line, name_lines, of_row, state_lines, text_lines, told_of_text};
ghost use Rattle.atspi_speech.specs.Words.{is_plain, spoken_role};

use crate::line::Line;
use crate::states::{FOCUSED, is_set, push_states, with_state, word_of_state};
use atspi_base::{NoMemory, Text, Texts};
use atspi_tables::role_name;
use atspi_tree_model::Row;
use std::alloc::Global;

const PASSWORD_TEXT: u32 = 40;

/// The line of a node that gets the focus and then has these states.
fn focus_line(alloc: Global, row: &Row, states: u64) -> Result<Text, NoMemory>
    ensures { IfOk result
        (λ line. line ≡ focus_line (record { name = row.now.name; role = row.now.role; states = states })) }
{
    let mut line = Line::new(alloc);
    if row.name.count() != 0 {
        line.push(&row.name)?;
        line.push_word(", ")?;
    }
    push_role(&mut line, row.role)?;
    push_states(&mut line, states)?;
    line.into_text(alloc)
}

/// Appends the spoken name of a role.
fn push_role(line: &mut Line, role: u32) -> Result<(), NoMemory>
    ensures { OnOk result (line.new ≡ line.old ++ spoken_role role) }
{
    line.push_word(role_name(role))
}

/// Appends the line of one word.
fn push_word_line(alloc: Global, word: &str, out: &mut Texts) -> Result<(), NoMemory>
    requires plain { is_plain word.now ≡ true }
    ensures ok { OnOk result (out.new ≡ out.old ++ word.now ∷ []) }
    ensures err { OnErr result (out.new ≡ out.old) }
{
    let mut line = Line::new(alloc);
    line.push_word(word)?;
    out.push(line.into_text(alloc)?)
}

/// Appends the lines of a state that is set or cleared.
pub(crate) fn state_changed(
    alloc: Global,
    row: &Row,
    state: u8,
    on: bool,
    out: &mut Texts,
) -> Result<(), NoMemory>
    ensures ok { OnOk result (out.new ≡ out.old ++ state_lines state on (of_row (with_state_of state on row.now))) }
    ensures err { OnErr result (out.new ≡ out.old) }
{
    let states = with_state(row.states, state, on);
    if state == FOCUSED {
        if !on {
            return Ok(());
        }
        return out.push(focus_line(alloc, row, states)?);
    }
    if !is_set(states, FOCUSED) {
        return Ok(());
    }
    match word_of_state(state, on) {
        Some(word) => push_word_line(alloc, word, out),
        None => Ok(()),
    }
}

/// Appends the lines of a new name.
pub(crate) fn renamed(
    alloc: Global,
    row: &Row,
    name: &Text,
    out: &mut Texts,
) -> Result<(), NoMemory>
    ensures ok { OnOk result (out.new ≡ out.old ++ name_lines (of_row (with_name name.now row.now))) }
    ensures err { OnErr result (out.new ≡ out.old) }
{
    if !is_set(row.states, FOCUSED) || name.count() == 0 {
        return Ok(());
    }
    out.push(name.copy(alloc)?)
}

/// Appends a text, or how long it is where it is a secret.
fn push_told(alloc: Global, line: &mut Line, role: u32, text: &Text) -> Result<(), NoMemory>
    ensures { OnOk result (line.new ≡ line.old ++ told_of_text role text.now) }
{
    if role != PASSWORD_TEXT {
        return line.push(text);
    }
    let count = text.count().to_string(alloc)?;
    line.push_word(count.as_str())?;
    line.push_word(" characters")
}

/// Appends the lines of a text that was put in or taken out, behind a word that says which.
pub(crate) fn text_changed(
    alloc: Global,
    row: &Row,
    word: &str,
    text: &Text,
    out: &mut Texts,
) -> Result<(), NoMemory>
    requires plain { is_plain word.now ≡ true }
    ensures ok { OnOk result (out.new ≡ out.old ++ text_lines word.now text.now (of_row row.now)) }
    ensures err { OnErr result (out.new ≡ out.old) }
{
    if !is_set(row.states, FOCUSED) {
        return Ok(());
    }
    let mut line = Line::new(alloc);
    line.push_word(word)?;
    push_told(alloc, &mut line, row.role, text)?;
    out.push(line.into_text(alloc)?)
}
