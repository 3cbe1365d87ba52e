//! Sets of states: the states that are spoken, and what is said of them.

ghost use Rattle.std.specs.Prelude.{◌≡◌, ◌<◌, ◌++◌, true, OnOk, IfSome};
ghost use Rattle.std.specs.Option.{option_copied, option_to_list};
ghost use Rattle.atspi_tree_model.specs.States.{has_state};
ghost use Rattle.atspi_speech.specs.Words.{behind_commas, checked_pieces, expanded_pieces, is_plain, line_if};
ghost use Rattle.atspi_speech.specs.Words.{state_pieces, words_of_state};

use crate::line::{Line, push_piece};
use atspi_base::NoMemory;

const CHECKED: u8 = 4;

const EXPANDABLE: u8 = 9;

const EXPANDED: u8 = 10;

pub(crate) const FOCUSED: u8 = 12;

const PRESSED: u8 = 20;

const SELECTED: u8 = 23;

const CHECKABLE: u8 = 41;

/// Whether a set has a state.
pub(crate) fn is_set(states: u64, state: u8) -> bool
    requires { state < 64 }
    ensures { result ≡ has_state state states }
{
    (states >> state) % 2 == 1
}

/// Appends whether a node is checked.
fn push_checked(line: &mut Line, states: u64) -> Result<(), NoMemory>
    ensures { OnOk result (line.new ≡ line.old ++ behind_commas (checked_pieces states)) }
{
    if is_set(states, CHECKED) {
        return push_piece(line, "checked");
    }
    if is_set(states, CHECKABLE) {
        return push_piece(line, "not checked");
    }
    Ok(())
}

/// Appends whether a node is expanded.
fn push_expanded(line: &mut Line, states: u64) -> Result<(), NoMemory>
    ensures { OnOk result (line.new ≡ line.old ++ behind_commas (expanded_pieces states)) }
{
    if is_set(states, EXPANDED) {
        return push_piece(line, "expanded");
    }
    if is_set(states, EXPANDABLE) {
        return push_piece(line, "collapsed");
    }
    Ok(())
}

/// Appends a word, if a set has a state.
fn push_if(line: &mut Line, states: u64, state: u8, word: &str) -> Result<(), NoMemory>
    requires is_state { state < 64 }
    requires plain { is_plain word.now ≡ true }
    ensures { OnOk result (line.new ≡ line.old ++ behind_commas (line_if (has_state state states) word.now)) }
{
    if is_set(states, state) {
        return push_piece(line, word);
    }
    Ok(())
}

/// Appends what is said of the states of a node that gets the focus.
pub(crate) fn push_states(line: &mut Line, states: u64) -> Result<(), NoMemory>
    ensures { OnOk result (line.new ≡ line.old ++ behind_commas (state_pieces states)) }
{
    push_checked(line, states)?;
    push_expanded(line, states)?;
    push_if(line, states, SELECTED, "selected")?;
    push_if(line, states, PRESSED, "pressed")
}

/// What is said where a state is set, and where it is cleared.
pub(crate) fn word_of_state(state: u8, on: bool) -> Option<&'static str>
    ensures words { option_to_list (option_copied result) ≡ words_of_state state on }
    ensures plain { IfSome result (λ word. is_plain word.now ≡ true) }
{
    match state {
        CHECKED => Some(if on { "checked" } else { "not checked" }),
        EXPANDED => Some(if on { "expanded" } else { "collapsed" }),
        SELECTED => Some(if on { "selected" } else { "not selected" }),
        PRESSED => Some(if on { "pressed" } else { "not pressed" }),
        _ => None,
    }
}
